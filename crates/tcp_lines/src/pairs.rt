//! Makes the two ends of a connection.
ghost use Rattle.std.specs.Prelude.{◌≡◌, IfOk, IfSome};
ghost use Rattle.tcp_lines.specs.Lines.{unused};

use crate::line::TcpLine;
use std::net::{Ipv4Addr, Net, TcpListener, TcpStream};
use std::time::Duration;
use thiserror::Error;

// A listener on this machine accepts at once, unless strangers have filled its queue, and then it seldom helps to wait
// longer.
const PATIENCE_SECONDS: u64 = 1;

// How often a pair is tried again after a stranger.
const MORE_TRIES: u32 = 4;

/// Why a pair couldn't be made.
#[derive(Clone, Copy, Debug, PartialEq, Eq, Error)]
pub enum PairFault {
    /// No connection to the listener was made within a second, or it couldn't be set up.
    #[error("cannot connect")]
    NoConnect,
    /// No connection could be accepted, or it couldn't be set up.
    #[error("cannot accept")]
    NoAccept,
    /// The accepted connection isn't the one just made: somebody else connected before. The one just made is closed but
    /// still in the listener's queue, so each later pair of this listener is likely to find a stranger too.
    #[error("a stranger connected")]
    Stranger,
}

/// Connects to the listener and accepts. It returns a line over the near end, and the stream at the far end.
///
/// Both ends send small segments at once. It allocates nothing.
pub fn pair<R: Net<Listener = TcpListener, Stream = TcpStream>>(
    rt: &R,
    listener: &TcpListener,
) -> Result<(TcpLine, TcpStream), PairFault>
    ensures { IfOk result (λ ends. ends.0 ≡ unused) }
{
    let address = listener.local_addr().map_err(|_| PairFault::NoConnect)?;
    let patience = Duration::from_secs(PATIENCE_SECONDS);
    let near = TcpStream::connect_timeout(rt, &address, patience).map_err(
        |_| PairFault::NoConnect,
    )?;
    let name = near.local_addr().map_err(|_| PairFault::NoConnect)?;
    near.set_nodelay(true).map_err(|_| PairFault::NoConnect)?;
    let (far, peer) = listener.accept().map_err(|_| PairFault::NoAccept)?;
    if peer != name {
        return Err(PairFault::Stranger);
    }
    far.set_nodelay(true).map_err(|_| PairFault::NoAccept)?;
    Ok((TcpLine::new(near), far))
}

/// Makes a pair over a listener of its own, on the loopback address at a port that the system picks, or returns `None`.
///
/// The listener is open from just before it is connected to until the pair is made, so others have little time to find
/// it or to fill its queue. After a stranger, it tries again with a new listener, up to four times. It doesn't try
/// again after another error, which would probably recur. Each try takes about a second at most.
pub fn own_pair<R: Net<Listener = TcpListener, Stream = TcpStream>>(
    rt: &R,
) -> Option<(TcpLine, TcpStream)>
    ensures { IfSome result (λ ends. ends.0 ≡ unused) }
{
    for _ in 0..=MORE_TRIES {
        let listener = TcpListener::bind(rt, (Ipv4Addr::LOCALHOST, 0)).ok()?;
        match pair(rt, &listener) {
            Err(PairFault::Stranger) => {}
            made => return made.ok(),
        }
    }
    None
}
