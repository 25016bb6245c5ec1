// Both sides of a connection.

ghost use Rattle.wires.specs.Lines.{HasRoom};
ghost use Rattle.tcp_lines.specs.Lines.{line_of};

use super::same::expect_same;
use ports::{Line, LineFault};
use std::cell::Cell;
use std::io;
use std::io::{Read, Write};
use std::net::{Ipv4Addr, Net, SocketAddr, TcpListener, TcpStream};
use std::process::Abort;
use std::time::{Duration, Instant};
use tcp_lines::{PairFault, TcpLine, own_pair, pair};

fn listen(rt: &impl Net<Listener = TcpListener, Stream = TcpStream>) -> io::Result<TcpListener> {
    TcpListener::bind(rt, (Ipv4Addr::LOCALHOST, 0))
}

fn expect_byte(rt: &impl Abort, line: &mut TcpLine, byte: u8)
    requires { HasRoom (line_of line.old) }
    ensures { HasRoom (line_of line.new) }
{
    let mut got = [0u8; 1];
    match line.get(&mut got) {
        Ok(1) => expect_same(rt, got[0], byte),
        _ => panic!(rt; "a byte"),
    }
}

#[test]
fn a_pair_carries_bytes_both_ways(rt: HostRuntime) {
    let listener = listen(&rt).expect(&rt, "a listener");
    let (mut line, mut far) = pair(&rt, &listener).expect(&rt, "a pair");
    let sends_at_once = far.nodelay().expect(&rt, "a connection");
    expect_same(&rt, sends_at_once, true);
    let mut heard = [0u8; 5];
    line.put(b"there").expect(&rt, "bytes sent");
    far.read_exact(&mut heard).expect(&rt, "bytes heard");
    expect_same(&rt, heard, *b"there");
    far.write_all(b"back").expect(&rt, "bytes sent");
    expect_byte(&rt, &mut line, b'b');
    expect_byte(&rt, &mut line, b'a');
    expect_byte(&rt, &mut line, b'c');
    expect_byte(&rt, &mut line, b'k');
    drop(far);
    let mut got = [0u8; 1];
    expect_same(&rt, line.get(&mut got), Ok(0));
}

// The far side closes while a byte that it has received is still unread. That breaks the connection.
#[test]
fn a_line_whose_connection_is_broken_fails(rt: HostRuntime) {
    let listener = listen(&rt).expect(&rt, "a listener");
    let (mut line, mut far) = pair(&rt, &listener).expect(&rt, "a pair");
    let mut heard = [0u8; 1];
    line.put(b"it").expect(&rt, "bytes sent");
    far.read_exact(&mut heard).expect(&rt, "bytes heard");
    drop(far);
    let mut got = [0u8; 1];
    expect_same(&rt, line.get(&mut got), Err(LineFault::Failed));
    expect_same(&rt, line.put(b"more"), Err(LineFault::Failed));
}

// A second descriptor keeps the socket open after the line closed its own, as if `close` had closed nothing.
#[test]
fn a_line_ends_its_stream_where_its_socket_stays_open(rt: HostRuntime) {
    let listener = listen(&rt).expect(&rt, "a listener");
    let address = listener.local_addr().expect(&rt, "an address");
    let near = TcpStream::connect(&rt, address).expect(&rt, "a connection");
    let (mut far, _) = listener.accept().expect(&rt, "a connection");
    far.set_read_timeout(Some(Duration::from_secs(10)))
        .expect(&rt, "a connection");
    let _open = near.try_clone().expect(&rt, "a descriptor");
    drop(TcpLine::new(near));
    let mut got = [0u8; 1];
    expect_same(&rt, far.read(&mut got).ok(), Some(0));
}

#[test]
fn a_stranger_who_connected_before_is_refused(rt: HostRuntime) {
    let listener = listen(&rt).expect(&rt, "a listener");
    let address = listener.local_addr().expect(&rt, "an address");
    let stranger = TcpStream::connect(&rt, address).expect(&rt, "a connection");
    let first = pair(&rt, &listener);
    expect_same(&rt, first.err(), Some(PairFault::Stranger));
    drop(stranger);
    let another = listen(&rt).expect(&rt, "a listener");
    expect_same(&rt, pair(&rt, &another).is_ok(), true);
}

// A network on which a stranger connects first to each of the next listeners, until `strangers` of them have connected.
#[derive(Drop)]
struct Crowded<'a, R> {
    rt: &'a R,
    strangers: Cell<u32>,
}

impl<R: Net<Listener = TcpListener, Stream = TcpStream>> Net for Crowded<'_, R> {
    type Stream = TcpStream;

    type Listener = TcpListener;

    fn bind(&self, addr: SocketAddr) -> io::Result<TcpListener> {
        let listener = self.rt.bind(addr)?;
        let left = self.strangers.get();
        if left > 0 {
            self.strangers.set(left - 1);
            let _stranger = self.rt.connect(listener.local_addr()?)?;
        }
        Ok(listener)
    }

    fn connect(&self, addr: SocketAddr) -> io::Result<TcpStream> {
        self.rt.connect(addr)
    }

    fn connect_timeout(&self, addr: SocketAddr, timeout: Duration) -> io::Result<TcpStream> {
        self.rt.connect_timeout(addr, timeout)
    }
}

#[test]
fn a_pair_of_its_own_is_tried_again_after_up_to_four_strangers(rt: HostRuntime) {
    for strangers in [0, 1, 4] {
        let crowded = Crowded {
            rt: &rt,
            strangers: Cell::new(strangers),
        };
        let (mut line, mut far) = own_pair(&crowded).expect(&rt, "a pair");
        expect_same(&rt, crowded.strangers.get(), 0);
        far.write_all(b"!").expect(&rt, "bytes sent");
        expect_byte(&rt, &mut line, b'!');
    }
    let crowded = Crowded {
        rt: &rt,
        strangers: Cell::new(6),
    };
    expect_same(&rt, own_pair(&crowded).is_none(), true);
    expect_same(&rt, crowded.strangers.get(), 1);
}

// Strangers have filled the queue of a listener, so it doesn't respond. The call doesn't wait for it.
#[test]
fn a_listener_without_room_cannot_be_connected_to(rt: HostRuntime) {
    let listener = listen(&rt).expect(&rt, "a listener");
    let address = listener.local_addr().expect(&rt, "an address");
    let mut strangers = Vec::new(rt.alloc());
    for _ in 0..200 {
        match TcpStream::connect_timeout(&rt, &address, Duration::from_millis(200)) {
            Ok(stranger) => strangers.push(stranger).expect(&rt, "memory"),
            Err(_) => break,
        }
    }
    let start = Instant::now(&rt).expect(&rt, "the time");
    let refused = pair(&rt, &listener);
    expect_same(&rt, refused.err(), Some(PairFault::NoConnect));
    let taken = start.elapsed(&rt).expect(&rt, "the time");
    expect_same(&rt, taken < Duration::from_secs(10), true);
}

#[test]
fn texts_of_faults(rt: HostRuntime) {
    let texts = [
        (PairFault::NoConnect, "cannot connect"),
        (PairFault::NoAccept, "cannot accept"),
        (PairFault::Stranger, "a stranger connected"),
    ];
    for (fault, text) in texts {
        let shown = format!(in rt.alloc(); "{fault}").expect(&rt, "memory");
        expect_same(&rt, shown.as_str(), text);
    }
}
