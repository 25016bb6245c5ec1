// A reader and a writer of std that fail. Each kind of error is returned as a failure, never as an end or as a write of
// no bytes.
use super::same::expect_same;
use byte_streams::{Failed, Sink, Source, Uncounted};
use std::io;
use std::io::{ErrorKind, Read, Write};

// Each call fails with this kind of error.
#[derive(Drop)]
struct Failing {
    kind: ErrorKind,
}

impl Read for Failing {
    fn read(&mut self, _buf: &mut [u8]) -> io::Result<usize> {
        Err(io::Error::from(self.kind))
    }
}

impl Write for Failing {
    fn write(&mut self, _buf: &[u8]) -> io::Result<usize> {
        Err(io::Error::from(self.kind))
    }

    fn flush(&mut self) -> io::Result<()> {
        Err(io::Error::from(self.kind))
    }
}

#[test]
fn each_kind_of_failure_is_answered_as_one(rt: HostRuntime) {
    for kind in [
        ErrorKind::Interrupted,
        ErrorKind::WouldBlock,
        ErrorKind::TimedOut,
        ErrorKind::ConnectionReset,
        ErrorKind::BrokenPipe,
        ErrorKind::UnexpectedEof,
        ErrorKind::Other,
    ] {
        let mut device = Uncounted(Failing { kind });
        expect_same(&rt, (kind, device.read(&mut [0; 4])), (kind, Err(Failed)));
        let mut device = Uncounted(Failing { kind });
        expect_same(&rt, (kind, device.write(b"p sp")), (kind, Err(Failed)));
        expect_same(&rt, (kind, device.flush()), (kind, Err(Failed)));
    }
}
