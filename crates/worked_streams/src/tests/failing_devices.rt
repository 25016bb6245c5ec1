// Readers and writers of std that fail once. The failure is returned, and the call isn't tried again.
use super::same::expect_same;
use byte_streams::{Failed, FillFault, PutFault, Sink, Source, Uncounted, fill, put};
use std::io;
use std::io::{ErrorKind, Read, Write};

// A reader whose first read is interrupted. After that it gives its bytes.
#[derive(Drop)]
struct InterruptedReader<'a> {
    has_failed: bool,
    bytes: &'a [u8],
}

impl Read for InterruptedReader<'_> {
    fn read(&mut self, buf: &mut [u8]) -> io::Result<usize> {
        if !self.has_failed {
            self.has_failed = true;
            return Err(io::Error::from(ErrorKind::Interrupted));
        }
        Read::read(&mut self.bytes, buf)
    }
}

// A writer whose first write is interrupted. After that it takes bytes, and its flushes fail.
#[derive(Drop)]
struct InterruptedWriter {
    has_failed: bool,
    taken: Vec<u8>,
}

impl Write for InterruptedWriter {
    fn write(&mut self, buf: &[u8]) -> io::Result<usize> {
        if !self.has_failed {
            self.has_failed = true;
            return Err(io::Error::from(ErrorKind::Interrupted));
        }
        Write::write(&mut self.taken, buf)
    }

    fn flush(&mut self) -> io::Result<()> {
        Err(io::Error::from(ErrorKind::Interrupted))
    }
}

#[test]
fn an_interrupted_read_is_answered_and_the_next_one_reads(rt: HostRuntime) {
    let mut source = Uncounted(InterruptedReader {
        has_failed: false,
        bytes: b"p sp",
    });
    let mut buf = [0; 3];
    expect_same(&rt, source.read(&mut buf), Err(Failed));
    expect_same(&rt, source.read(&mut buf), Ok(3));
    expect_same(&rt, buf.as_slice(), b"p s".as_slice());
}

#[test]
fn a_fill_ends_at_an_interrupted_read(rt: HostRuntime) {
    let mut source = Uncounted(InterruptedReader {
        has_failed: false,
        bytes: b"p sp",
    });
    let mut buf = [0; 4];
    expect_same(&rt, fill(&mut source, &mut buf), Err(FillFault::Failed(0)));
    expect_same(&rt, fill(&mut source, &mut buf), Ok(()));
    expect_same(&rt, buf.as_slice(), b"p sp".as_slice());
}

#[test]
fn an_interrupted_write_is_answered_and_the_next_one_writes(rt: HostRuntime) {
    let mut sink = Uncounted(InterruptedWriter {
        has_failed: false,
        taken: Vec::new(rt.alloc()),
    });
    expect_same(&rt, sink.write(b"p sp"), Err(Failed));
    expect_same(&rt, sink.write(b"p sp"), Ok(4));
    expect_same(&rt, sink.0.taken.as_slice(), b"p sp".as_slice());
}

#[test]
fn a_put_ends_at_an_interrupted_write(rt: HostRuntime) {
    let mut sink = Uncounted(InterruptedWriter {
        has_failed: false,
        taken: Vec::new(rt.alloc()),
    });
    expect_same(&rt, put(&mut sink, b"p sp"), Err(PutFault { written: 0 }));
    expect_same(&rt, put(&mut sink, b"p sp"), Ok(()));
    expect_same(&rt, sink.0.taken.as_slice(), b"p sp".as_slice());
}

#[test]
fn a_failed_flush_is_answered_and_takes_nothing(rt: HostRuntime) {
    let mut sink = Uncounted(InterruptedWriter {
        has_failed: true,
        taken: Vec::new(rt.alloc()),
    });
    expect_same(&rt, put(&mut sink, b"p sp"), Ok(()));
    expect_same(&rt, sink.flush(), Err(Failed));
    expect_same(&rt, sink.0.taken.as_slice(), b"p sp".as_slice());
}
