// The texts of forests, how a sink is called, and how much of a text was written.
use super::lists::links_between;
use super::same::expect_same;
use byte_streams::{BufferedSink, Failed, Sink};
use gr_text::{FusedSink, WriteFault, write_forest};
use link_key::Forest;
use std::alloc::Global;
use std::process::Abort;
use worked_graphs::{Row, SMALL_NET};

// The forest of these links, which have to be in the order of their keys.
fn forest_of(rt: &impl Abort, alloc: Global, rows: &[Row]) -> Forest {
    let links = links_between(rt, alloc, 1 << 26, rows);
    Forest::of_list(links).expect(rt, "ascending")
}

// A sink that counts its writes, its flushes, and the writes after the first flush.
#[derive(Drop)]
struct Counted {
    bytes: Vec<u8>,
    writes: usize,
    flushes: u32,
    late_writes: u32,
}

impl Counted {
    fn new(alloc: Global) -> Self {
        Counted {
            bytes: Vec::new(alloc),
            writes: 0,
            flushes: 0,
            late_writes: 0,
        }
    }
}

impl Sink for Counted {
    fn write(&mut self, buf: &[u8]) -> Result<usize, Failed> {
        self.writes = self.writes.saturating_add(1);
        if self.flushes > 0 {
            self.late_writes = self.late_writes.saturating_add(1);
        }
        self.bytes.extend_from_slice(buf).map_err(|_| Failed)?;
        Ok(buf.len())
    }

    fn flush(&mut self) -> Result<(), Failed> {
        self.flushes = self.flushes.saturating_add(1);
        Ok(())
    }
}

// The forest has this text. The sink is flushed once, after the last byte, so that no byte is left in a buffer. The
// first line is a write of its own. The other lines are written in pieces of up to 8 KiB. Every piece but the last is
// too full for one more line of 64 bytes.
fn expect_text(rt: &impl Abort, alloc: Global, n: u32, forest: &Forest, text: &[u8]) {
    let mut sink = Counted::new(alloc);
    let written = write_forest(&mut sink, n, forest);
    expect_same(rt, written, Ok(text.len() as u64));
    expect_same(rt, sink.bytes.as_slice(), text);
    expect_same(rt, (sink.flushes, sink.late_writes), (1, 0));
    let first = text.iter().position(|&byte| byte == b'\n').unwrap_or(0);
    let lines = text.len().saturating_sub(first).saturating_sub(1);
    let pieces = lines.saturating_add(8127) / 8128;
    expect_same(rt, sink.writes <= pieces.saturating_add(1), true);
    let mut buffered = BufferedSink::new(Vec::new(alloc));
    let written = write_forest(&mut buffered, n, forest);
    expect_same(rt, written, Ok(text.len() as u64));
    expect_same(rt, buffered.flushed(), text);
}

#[test]
fn writes_small_forests(rt: HostRuntime) {
    let signs = [
        (7, 8, -9223372036854775808),
        (5, 6, -2147483648),
        (1, 2, -3),
        (3, 4, 0),
        (67108863, 67108864, 2147483647),
        (67108862, 67108864, 9223372036854775807),
    ];
    let rows = [
        (0, [].as_slice(), b"p sp 0 0\n".as_slice()),
        (6, SMALL_NET.forest, SMALL_NET.text),
        (
            67108864,
            signs.as_slice(),
            b"p sp 67108864 6\na 7 8 -9223372036854775808\na 5 6 -2147483648\na 1 2 -3\na 3 4 0\na 67108863 67108864 2147483647\na 67108862 67108864 9223372036854775807\n".as_slice(),
        ),
    ];
    for (n, links, text) in rows {
        let forest = forest_of(&rt, rt.alloc(), links);
        expect_text(&rt, rt.alloc(), n, &forest, text);
    }
}

// A sink that fails after `passes` bytes has exactly these bytes. That includes one that is full at the last byte and
// fails at the flush. A sink that stops at the last byte and is then flushed has the whole text.
#[test]
fn counts_the_bytes_that_went_out(rt: HostRuntime) {
    let forest = forest_of(&rt, rt.alloc(), SMALL_NET.forest);
    for passes in 0..51usize {
        let fault = Err(WriteFault {
            written: passes as u64,
        });
        let mut failing = FusedSink::new(rt.alloc(), passes, 7).expect(&rt, "memory");
        expect_same(&rt, write_forest(&mut failing, 6, &forest), fault);
        let mut stopping = FusedSink::stopped(rt.alloc(), passes, 7).expect(&rt, "memory");
        let expected = if passes < 50 { fault } else { Ok(50) };
        expect_same(&rt, write_forest(&mut stopping, 6, &forest), expected);
        expect_same(&rt, stopping.held(), failing.held());
        expect_same(&rt, SMALL_NET.text.get(..passes), Some(failing.held()));
    }
}

// 2000 links whose lines have 11 bytes each, which is more than two pieces.
#[test]
fn writes_many_pieces(rt: HostRuntime) {
    let mut rows = Vec::new(rt.alloc());
    let mut text = Vec::from_slice(rt.alloc(), b"p sp 8 2000\n").expect(&rt, "memory");
    for weight in 1000..3000 {
        rows.push((7, 8, weight)).expect(&rt, "memory");
        let line = format!(in rt.alloc(); "a 7 8 {weight}\n").expect(&rt, "memory");
        text.extend_from_slice(line.as_bytes())
            .expect(&rt, "memory");
    }
    let forest = forest_of(&rt, rt.alloc(), rows.as_slice());
    expect_text(&rt, rt.alloc(), 8, &forest, text.as_slice());
    let mut failing = FusedSink::new(rt.alloc(), 20000, 5000).expect(&rt, "memory");
    let fault = WriteFault { written: 20000 };
    expect_same(&rt, write_forest(&mut failing, 8, &forest), Err(fault));
    expect_same(&rt, text.get(..20000), Some(failing.held()));
}
