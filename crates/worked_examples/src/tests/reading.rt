// Texts in the `.gr` format: the graphs that they describe, their errors, pieces and limits.
use super::same::expect_same;
use gr_text::{
    FusedSource, GrFault, GrKind, GrReader, Graph, MAX_BYTES, ReadFault, parse, read_graph,
    read_graph_upto,
};
use link_key::Link;
use std::process::Abort;
use worked_graphs::{Row, SMALL_NET};

fn fault(line: u64, kind: GrKind) -> ReadFault {
    ReadFault::Gr(GrFault { line, kind })
}

// What was read is the graph that the small net's file describes.
fn expect_small_net(rt: &impl Abort, read: Result<Graph, ReadFault>) {
    let graph = read.ok().expect(rt, "a graph");
    let links = [
        (1, 2, 17),
        (1, 3, 10),
        (2, 4, 2),
        (3, 5, 0),
        (3, 4, 0),
        (4, 6, 3),
        (2, 5, 0),
        (5, 6, 20),
    ];
    let found = (graph.n(), are_links(graph.links(), &links));
    expect_same(rt, found, (6, true));
}

fn are_links(links: &[Link], expected: &[Row]) -> bool {
    links.len() == expected.len()
        && links
            .iter()
            .zip(expected)
            .all(|(link, &row)| (link.low, link.high, link.weight) == row)
}

#[test]
fn names_what_is_wrong_with_a_problem_line(rt: HostRuntime) {
    let rows = [
        (b"".as_slice(), 1, GrKind::MissingProblem),
        (b"e 1 2".as_slice(), 1, GrKind::UnknownLine),
        (b"p max 2 1".as_slice(), 1, GrKind::BadProblem),
        (b"p sp 67108865 x".as_slice(), 1, GrKind::BadProblem),
        (b"p sp 67108865 0".as_slice(), 1, GrKind::TooLarge),
        (b"p sp 0 1073741825".as_slice(), 1, GrKind::TooLarge),
        (b"p sp 2 1\np sp x".as_slice(), 2, GrKind::SecondProblem),
        (
            b"p sp 2 1\np sp 67108865 0".as_slice(),
            2,
            GrKind::SecondProblem,
        ),
    ];
    for (text, line, kind) in rows {
        let found = parse(rt.alloc(), text).err();
        expect_same(&rt, (text, found), (text, Some(fault(line, kind))));
    }
}

#[test]
fn names_what_is_wrong_with_an_arc_line(rt: HostRuntime) {
    let rows = [
        (b"a 1 2 3\np sp 2 1\n".as_slice(), 1, GrKind::NoProblemYet),
        (b"a x\np sp 2 1\n".as_slice(), 1, GrKind::NoProblemYet),
        (b"p sp 2 0\na x".as_slice(), 2, GrKind::TooManyArcs),
        (b"p sp 2 0\na 1 3 4".as_slice(), 2, GrKind::TooManyArcs),
        (b"p sp 2 1\na 1 2".as_slice(), 2, GrKind::BadArc),
        (b"p sp 2 1\na 1 3".as_slice(), 2, GrKind::BadArc),
        (
            b"p sp 2 1\na 1 3 9999999999".as_slice(),
            2,
            GrKind::EndOutOfRange,
        ),
        (b"p sp 2 1\na 0 2 5".as_slice(), 2, GrKind::EndOutOfRange),
        (
            b"p sp 2 1\na 1 2 9223372036854775808".as_slice(),
            2,
            GrKind::WeightOutOfRange,
        ),
        (
            b"p sp 2 1\na 1 2 -9223372036854775809\n".as_slice(),
            2,
            GrKind::WeightOutOfRange,
        ),
        (
            b"p sp 2 1\na 1 2 18446744073709551617\n".as_slice(),
            2,
            GrKind::WeightOutOfRange,
        ),
        (
            b"p sp 2 1\na 1 2 -340282366920938463463374607431768211457\n".as_slice(),
            2,
            GrKind::WeightOutOfRange,
        ),
        (b"p sp 2 2\na 1 2 5".as_slice(), 3, GrKind::MissingArcs),
        (b"p sp 2 2\na 1 2 5\n".as_slice(), 3, GrKind::MissingArcs),
    ];
    for (text, line, kind) in rows {
        let found = parse(rt.alloc(), text).err();
        expect_same(&rt, (text, found), (text, Some(fault(line, kind))));
    }
}

#[test]
fn reads_weights_loops_and_repeats(rt: HostRuntime) {
    let text =
        b"p sp 2 7\na 1 2 -9223372036854775808\na 1 1 5\na 2 1 9223372036854775807\na 2 1 2147483648\na 2 1 -00000000002147483649\na 2 1 -0\na 1 2 0";
    let graph = parse(rt.alloc(), text).ok().expect(&rt, "a graph");
    expect_same(&rt, graph.n(), 2);
    let rows = [
        (1, 2, -9223372036854775808),
        (1, 2, 9223372036854775807),
        (1, 2, 2147483648),
        (1, 2, -2147483649),
        (1, 2, 0),
        (1, 2, 0),
    ];
    expect_same(&rt, are_links(graph.links(), &rows), true);
    let links = graph.into_links();
    expect_same(&rt, are_links(links.as_slice(), &rows), true);
}

#[test]
fn reads_bytes_one_after_another(rt: HostRuntime) {
    let text =
        b"c a small net\r\np\tsp\t006\t8\r\na\t1\t02\t0017\r\nc the usual shape\r\na\t1\t3\t10\r\na\t2\t4\t002\r\na\t3\t5\t0\r\na\t4\t3\t000\r\na\t4\t6\t3\r\n\ta\t5\t2\t-0\r\na\t5\t006\t20\r\n";
    let mut reader = GrReader::new(rt.alloc(), MAX_BYTES);
    for i in 0..text.len() {
        expect_same(&rt, reader.feed(&text[i..i + 1]), Ok(()));
    }
    expect_same(&rt, reader.line(), 12);
    expect_small_net(&rt, reader.finish());
    expect_small_net(&rt, parse(rt.alloc(), text));
}

#[test]
fn reads_two_pieces_cut_anywhere(rt: HostRuntime) {
    let text = SMALL_NET.file;
    for at in 0..=text.len() {
        let mut reader = GrReader::new(rt.alloc(), MAX_BYTES);
        expect_same(&rt, reader.feed(&text[..at]), Ok(()));
        expect_same(&rt, reader.feed(&text[at..]), Ok(()));
        expect_small_net(&rt, reader.finish());
    }
}

// Lines as some systems write them. A carriage return is a blank, and doesn't end a line by itself.
#[test]
fn reads_lines_that_end_in_carriage_return_and_line_feed(rt: HostRuntime) {
    let text =
        b"c a small net\r\np sp 6 8\r\na 1 2 17\r\nc the usual shape\r\na 1 3 10\r\na 2 4 2\r\na 3 5 0\r\na 4 3 0\r\na 4 6 3\r\na 5 2 -0\r\na 5 6 20\r\n";
    for at in 0..=text.len() {
        let mut reader = GrReader::new(rt.alloc(), MAX_BYTES);
        expect_same(&rt, reader.feed(&text[..at]), Ok(()));
        expect_same(&rt, reader.feed(&text[at..]), Ok(()));
        expect_same(&rt, reader.line(), 12);
        expect_small_net(&rt, reader.finish());
    }
    let graph = parse(rt.alloc(), b"p sp 2 1\na 1 2 -5\r\r\n").ok();
    let graph = graph.expect(&rt, "a graph");
    expect_same(&rt, are_links(graph.links(), &[(1, 2, -5)]), true);
    let rows = [b"p sp 3 1\na 1 2 5\r6\n", b"p sp 3 1\na 1 2\r\n 5\n"];
    for text in rows {
        let found = parse(rt.alloc(), text).err();
        expect_same(&rt, found, Some(fault(2, GrKind::BadArc)));
    }
}

// A limit of nine bytes is too small for ten bytes and a limit of ten is enough, wherever the text is split. A piece
// may begin exactly at the limit. The line feed, the ninth byte, ends the first line.
#[test]
fn takes_no_more_than_its_limit(rt: HostRuntime) {
    let text = b"p sp 0 0\nc";
    let too_long = Err(ReadFault::TooLong);
    for at in 0..=text.len() {
        let (first, second) = text.split_at(at);
        let line = if at < 9 { 1 } else { 2 };
        let mut short = GrReader::new(rt.alloc(), 9);
        let took = short.feed(first).is_ok();
        expect_same(&rt, (at, took), (at, at < 10));
        if took {
            expect_same(&rt, (at, short.line()), (at, line));
        }
        expect_same(&rt, (at, short.feed(second)), (at, too_long));
        let read = short.finish().map(|graph| graph.n());
        expect_same(&rt, read, Err(ReadFault::TooLong));
        let mut enough = GrReader::new(rt.alloc(), 10);
        let answers = (enough.feed(first), enough.line());
        expect_same(&rt, (at, answers), (at, (Ok(()), line)));
        let answers = (enough.feed(second), enough.feed(b""));
        expect_same(&rt, (at, answers), (at, (Ok(()), Ok(()))));
        expect_same(&rt, enough.line(), 2);
        let read = enough.finish().map(|graph| graph.n());
        expect_same(&rt, read, Ok(0));
    }
}

#[test]
fn answers_its_fault_from_then_on(rt: HostRuntime) {
    let unknown = fault(1, GrKind::UnknownLine);
    let mut reader = GrReader::new(rt.alloc(), MAX_BYTES);
    expect_same(&rt, reader.feed(b"x"), Ok(()));
    expect_same(&rt, reader.feed(b"\n"), Err(unknown));
    expect_same(&rt, reader.feed(b"p sp 0 0"), Err(unknown));
    expect_same(&rt, reader.finish().err(), Some(unknown));
}

#[test]
fn reads_a_source_to_its_end(rt: HostRuntime) {
    let text = Vec::from_slice(rt.alloc(), SMALL_NET.file).expect(&rt, "memory");
    let mut source = FusedSource::new(text, 109, 7);
    expect_small_net(&rt, read_graph(rt.alloc(), &mut source));
}

#[test]
fn reads_sources_that_fail(rt: HostRuntime) {
    let text = Vec::from_slice(rt.alloc(), b"p sp 2 2\na 1 2 5").expect(&rt, "memory");
    let mut breaks_off = FusedSource::new(text, 12, 5);
    let lost = ReadFault::Source { line: 2 };
    let found = read_graph(rt.alloc(), &mut breaks_off).err();
    expect_same(&rt, found, Some(lost));
    let text = Vec::from_slice(rt.alloc(), b"x\np").expect(&rt, "memory");
    let mut faulty = FusedSource::new(text, 3, 5);
    let found = read_graph(rt.alloc(), &mut faulty).err();
    expect_same(&rt, found, Some(fault(1, GrKind::UnknownLine)));
}

// Pieces of each length, so that some begin exactly at the limit.
#[test]
fn reads_a_source_up_to_a_limit(rt: HostRuntime) {
    for piece in 1..12usize {
        for limit in 0..12u64 {
            let text = Vec::from_slice(rt.alloc(), b"p sp 0 0\nc").expect(&rt, "memory");
            let mut source = FusedSource::new(text, usize::MAX, piece);
            let graph = read_graph_upto(rt.alloc(), &mut source, limit);
            let expected = if limit < 10 {
                Err(ReadFault::TooLong)
            } else {
                Ok(0)
            };
            let read = graph.map(|graph| graph.n());
            expect_same(&rt, (piece, limit, read), (piece, limit, expected));
        }
    }
}
