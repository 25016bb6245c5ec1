// Sources and sinks, and those that fail at a chosen byte.
use super::same::{expect_same, expect_text};
use byte_streams::{
    BufferedSink, Failed, FillFault, FusedSink, FusedSource, PutFault, Sink, Source, Uncounted,
    fill, put,
};
use std::fs::{File, OpenOptions};

#[test]
fn fills_from_a_slice(rt: HostRuntime) {
    let mut source = b"p sp 6 5".as_slice();
    let mut buf = [0; 5];
    expect_same(&rt, fill(&mut source, &mut buf[..4]), Ok(()));
    expect_same(&rt, &buf[..4], b"p sp".as_slice());
    expect_same(&rt, fill(&mut source, &mut []), Ok(()));
    expect_same(&rt, fill(&mut source, &mut buf), Err(FillFault::Ended(4)));
    expect_same(&rt, &buf[..4], b" 6 5".as_slice());
    expect_same(&rt, fill(&mut source, &mut buf), Err(FillFault::Ended(0)));
}

#[test]
fn puts_into_a_vector(rt: HostRuntime) {
    let mut sink = Vec::new(rt.alloc());
    expect_same(&rt, put(&mut sink, b"p sp "), Ok(()));
    expect_same(&rt, put(&mut sink, b""), Ok(()));
    expect_same(&rt, put(&mut sink, b"6 5\n"), Ok(()));
    expect_same(&rt, sink.flush(), Ok(()));
    expect_same(&rt, sink.as_slice(), b"p sp 6 5\n".as_slice());
}

// Texts larger than any buffer for reading or writing: put into a vector that grows, and filled from a slice again.
#[test]
fn texts_of_any_size_go_in_and_out(rt: HostRuntime) {
    for size in [65_535_u64, 65_536, 65_537, 1_000_000] {
        let mut text = Vec::new(rt.alloc());
        for number in 0..size {
            text.push((number % 251) as u8).expect(&rt, "memory");
        }
        let mut sink = Vec::new(rt.alloc());
        for _ in 0..3 {
            expect_same(&rt, put(&mut sink, text.as_slice()), Ok(()));
        }
        let mut source = sink.as_slice();
        for _ in 0..3 {
            let mut buf = vec![in rt.alloc(); 0; size as usize].expect(&rt, "memory");
            expect_same(&rt, fill(&mut source, &mut buf), Ok(()));
            let same = buf.as_slice() == text.as_slice();
            expect_same(&rt, (size, same), (size, true));
        }
        expect_same(&rt, source.len(), 0);
    }
}

// Five bytes in pieces of two. `passes` of them are read before the source fails.
#[test]
fn source_fails_after_its_passes(rt: HostRuntime) {
    for passes in 0..5 {
        let bytes = Vec::from_slice(rt.alloc(), b"hello").expect(&rt, "memory");
        let mut source = FusedSource::new(bytes, passes, 2);
        let mut buf = [0; 5];
        expect_same(
            &rt,
            fill(&mut source, &mut buf),
            Err(FillFault::Failed(passes)),
        );
        expect_same(&rt, &buf[..passes], &b"hello"[..passes]);
    }
    let mut source = FusedSource::new(
        Vec::from_slice(rt.alloc(), b"hello").expect(&rt, "memory"),
        5,
        2,
    );
    expect_same(&rt, fill(&mut source, &mut [0; 5]), Ok(()));
    expect_same(
        &rt,
        fill(&mut source, &mut [0; 1]),
        Err(FillFault::Failed(0)),
    );
}

#[test]
fn source_ends_before_its_passes(rt: HostRuntime) {
    let mut source = FusedSource::new(
        Vec::from_slice(rt.alloc(), b"hello").expect(&rt, "memory"),
        6,
        2,
    );
    let mut buf = [0; 4];
    expect_same(&rt, source.read(&mut buf), Ok(2));
    expect_same(&rt, fill(&mut source, &mut buf), Err(FillFault::Ended(3)));
    expect_same(&rt, &buf[..3], b"llo".as_slice());
    expect_same(&rt, source.read(&mut buf), Ok(0));
}

// Nine bytes in pieces of two. The sink takes `passes` of them.
#[test]
fn sink_fails_after_its_passes(rt: HostRuntime) {
    let text = b"p sp 6 5\n";
    for passes in 0..9 {
        let mut sink = FusedSink::new(rt.alloc(), passes, 2).expect(&rt, "memory");
        let fault = PutFault {
            written: passes as u64,
        };
        expect_same(&rt, put(&mut sink, text), Err(fault));
        expect_same(&rt, sink.held(), &text[..passes]);
        expect_same(&rt, sink.flush(), Err(Failed));
    }
    let mut sink = FusedSink::new(rt.alloc(), 9, 2).expect(&rt, "memory");
    expect_same(&rt, put(&mut sink, text), Ok(()));
    expect_same(&rt, sink.flush(), Err(Failed));
    let mut sink = FusedSink::new(rt.alloc(), 10, 2).expect(&rt, "memory");
    expect_same(&rt, put(&mut sink, text), Ok(()));
    expect_same(&rt, sink.flush(), Ok(()));
    expect_same(&rt, sink.held(), text.as_slice());
}

#[test]
fn stopped_sink_takes_nothing_more(rt: HostRuntime) {
    let text = b"p sp 6 5\n";
    let mut sink = FusedSink::stopped(rt.alloc(), 4, 3).expect(&rt, "memory");
    expect_same(&rt, put(&mut sink, text), Err(PutFault { written: 4 }));
    expect_same(&rt, sink.write(text), Ok(0));
    expect_same(&rt, sink.write(&[]), Ok(0));
    expect_same(&rt, sink.flush(), Ok(()));
    expect_same(&rt, sink.held(), b"p sp".as_slice());
    let mut sink = FusedSink::stopped(rt.alloc(), 9, 3).expect(&rt, "memory");
    expect_same(&rt, put(&mut sink, text), Ok(()));
}

// Bytes stay in the buffer until the next flush, including those that it began with.
#[test]
fn buffered_sink_keeps_bytes_until_a_flush(rt: HostRuntime) {
    let mut sink = BufferedSink::new(Vec::from_slice(rt.alloc(), b"p ").expect(&rt, "memory"));
    expect_same(&rt, put(&mut sink, b"sp "), Ok(()));
    expect_same(&rt, sink.flushed(), b"".as_slice());
    expect_same(&rt, sink.flush(), Ok(()));
    expect_same(&rt, put(&mut sink, b"6 5\n"), Ok(()));
    expect_same(&rt, sink.flushed(), b"p sp ".as_slice());
    expect_same(&rt, sink.flush(), Ok(()));
    expect_same(&rt, sink.flushed(), b"p sp 6 5\n".as_slice());
}

#[test]
fn wraps_other_readers_and_writers(rt: HostRuntime) {
    let mut source = Uncounted(b"hello".as_slice());
    let mut buf = [0; 4];
    expect_same(&rt, fill(&mut source, &mut buf), Ok(()));
    expect_same(&rt, buf.as_slice(), b"hell".as_slice());
    let mut sink = Uncounted(Vec::new(rt.alloc()));
    expect_same(&rt, put(&mut sink, &buf), Ok(()));
    expect_same(&rt, sink.flush(), Ok(()));
    expect_same(&rt, sink.0.as_slice(), b"hell".as_slice());
}

// A directory fails at its first read, an empty device ends there, and a full device fails at its first write.
#[test]
fn devices_fail_and_end(rt: HostRuntime) {
    let mut buf = [0; 1];
    expect_same(
        &rt,
        fill(
            &mut Uncounted(File::open(&rt, "/").expect(&rt, "a device")),
            &mut buf,
        ),
        Err(FillFault::Failed(0)),
    );
    expect_same(
        &rt,
        fill(
            &mut Uncounted(File::open(&rt, "/dev/null").expect(&rt, "a device")),
            &mut buf,
        ),
        Err(FillFault::Ended(0)),
    );
    expect_same(
        &rt,
        fill(
            &mut Uncounted(File::open(&rt, "/dev/zero").expect(&rt, "a device")),
            &mut buf,
        ),
        Ok(()),
    );
    let full = OpenOptions::new()
        .write(true)
        .open(&rt, "/dev/full")
        .expect(&rt, "a device");
    expect_same(
        &rt,
        put(&mut Uncounted(full), b"ab"),
        Err(PutFault { written: 0 }),
    );
    let null = OpenOptions::new()
        .write(true)
        .open(&rt, "/dev/null")
        .expect(&rt, "a device");
    let mut sink = Uncounted(null);
    expect_same(&rt, put(&mut sink, b"ab"), Ok(()));
    expect_same(&rt, sink.flush(), Ok(()));
}

#[test]
fn faults_have_texts(rt: HostRuntime) {
    let alloc = rt.alloc();
    expect_text(&rt, alloc, &Failed, "the stream failed");
    expect_text(
        &rt,
        alloc,
        &FillFault::Failed(3),
        "read failed after 3 bytes",
    );
    expect_text(
        &rt,
        alloc,
        &FillFault::Ended(4),
        "stream ended after 4 bytes",
    );
    let fault = PutFault { written: 5 };
    expect_text(&rt, alloc, &fault, "write failed after 5 bytes");
}
