//! A line over a connection.
ghost use Rattle.std.specs.Prelude.{◌≡◌, length};
ghost use Rattle.std.specs.Io.{ReadsAtMost};
ghost use Rattle.wires.specs.Lines.{HasRoom, Puts, Gets};
ghost use Rattle.tcp_lines.specs.Lines.{line_of, unused};

use byte_streams::{Source, Uncounted, put};
use std::marker::Model;
use std::net::{Shutdown, TcpStream};
use wires::{Line, LineFault};

/// A line over a TCP connection, which it owns. It shuts the connection down and closes it when it is dropped.
///
/// It allocates nothing. A call fails if the connection is broken, and also if it is interrupted.
pub struct TcpLine {
    stream: TcpStream,
    failures: u64,
    ends: u64,
}

impl Drop for TcpLine {
    // Shuts the connection down first, so that a reader at the far end reaches the end of the stream. This holds even
    // if the `close` that follows fails and leaves the socket open.
    fn drop(self) {
        let TcpLine {
            stream,
            failures: _,
            ends: _,
        } = self;
        shut_down(&stream);
    }
}

// Ends both directions of a connection. If it is already broken, this fails, and needn't be done.
pub(crate) fn shut_down(stream: &TcpStream) {
    let _ended = stream.shutdown(Shutdown::Both);
}

impl Model for TcpLine {
    ghost use Rattle.tcp_lines.specs.Lines.{TcpLineState};

    ghost Value = { TcpLineState };

    ghost view = { λ s. record { failures = s.failures; ends = s.ends } };
}

impl TcpLine {
    /// A line over this connection.
    ///
    /// The stream should send small segments at once (`set_nodelay`), since a frame is sent while the other end may not
    /// have acknowledged the one before it.
    pub fn new(stream: TcpStream) -> Self
        ensures { result ≡ unused }
    {
        TcpLine {
            stream,
            failures: 0,
            ends: 0,
        }
    }
}

impl Line for TcpLine {
    ghost state = { line_of };

    ghost faithful = { λ _ _. ⊥ };

    // The first write gets all of `bytes`; others follow while bytes are left.
    fn put(&mut self, bytes: &[u8]) -> Result<(), LineFault> {
        match put(&mut Uncounted(&self.stream), bytes) {
            Ok(()) => Ok(()),
            Err(_) => {
                self.failures += 1;
                Err(LineFault::Failed)
            }
        }
    }

    fn get(&mut self, into: &mut [u8]) -> Result<usize, LineFault> {
        match Uncounted(&self.stream).read(into) {
            Ok(n) => {
                if n == 0 {
                    self.ends += 1;
                }
                Ok(n)
            }
            Err(_) => {
                self.failures += 1;
                Err(LineFault::Failed)
            }
        }
    }

    ghost serves = { λ _ _ faithful. absurd faithful };
}
