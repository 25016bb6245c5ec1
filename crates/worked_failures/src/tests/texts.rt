// Files that are read whole, in pieces and from a source, and sinks of tests. Writing a forest allocates nothing.
ghost use Rattle.std.specs.Prelude.{◌<◌, ◌-◌, ◌^◌, IfOk};

use super::in_turn::{Memory, expect_each, or_refused};
use super::lists::few_links;
use super::same::expect_same;
use gr_text::{
    FusedSink, GrFault, GrKind, GrReader, Graph, MAX_BYTES, ReadFault, WriteFault, parse,
    read_graph, read_graph_upto, write_forest,
};
use link_key::{Forest, Link};
use std::alloc::{AllocError, Global};
use std::process::Abort;
use test_memory::{Refusals, Refusing};
use worked_graphs::SMALL_NET;

// The small net with a carriage return at each line's end, tabs for spaces, and zeros before numbers.
const SPELLED_ELSE: &[u8] =
    b"c a small net\r\np\tsp\t006\t8\r\na\t1\t02\t0017\r\nc the usual shape\r\na\t1\t3\t10\r\na\t2\t4\t002\r\na\t3\t5\t0\r\na\t4\t3\t000\r\na\t4\t6\t3\r\na\t5\t2\t000\r\na\t5\t006\t20\r\n";

// A text with an arc line before its problem line, and its error.
const NO_PROBLEM_YET: (&[u8], ReadFault) = (
    b"a 1 2 3\np sp 2 1\n",
    ReadFault::Gr(GrFault {
        line: 1,
        kind: GrKind::NoProblemYet,
    }),
);

// The text was read as the graph of six vertices and these links, or the reader was out of memory.
fn expect_graph(
    rt: &impl Abort,
    read: Result<Graph<&Memory>, ReadFault>,
    links: &[Link],
) -> Result<(), AllocError> {
    let graph = or_refused(rt, read, ReadFault::Memory)?;
    expect_same(rt, (graph.n(), graph.links()), (6, links));
    Ok(())
}

#[derive(Clone, Copy)]
enum Call {
    Parse,
    ReadGraph,
    ReadGraphUpto,
    GrReader,
    FailingSink,
    StoppedSink,
}

const CALLS: [Call; 6] = [
    Call::Parse,
    Call::ReadGraph,
    Call::ReadGraphUpto,
    Call::GrReader,
    Call::FailingSink,
    Call::StoppedSink,
];

// Reads the small net, or writes its forest into a sink with a capacity of ten bytes.
fn make(rt: &impl Abort, alloc: Global, memory: &Memory, call: Call) -> Result<(), AllocError> {
    let links = few_links(rt, alloc, 6, SMALL_NET.arcs);
    let links = links.as_slice();
    let mut source = SMALL_NET.file;
    match call {
        Call::Parse => expect_graph(rt, parse(memory, source), links),
        Call::ReadGraph => expect_graph(rt, read_graph(memory, &mut source), links),
        Call::ReadGraphUpto => {
            let limit = source.len() as u64;
            expect_graph(rt, read_graph_upto(memory, &mut source, limit), links)
        }
        Call::GrReader => expect_graph(rt, read_bytes(rt, memory)?, links),
        Call::FailingSink => expect_ten_bytes(rt, alloc, memory, FusedSink::new(memory, 10, 7)),
        Call::StoppedSink => {
            expect_ten_bytes(rt, alloc, memory, FusedSink::stopped(memory, 10, 7))
        }
    }
}

#[test]
fn files_and_sinks(rt: HostRuntime) {
    for call in CALLS {
        expect_each(
            &rt,
            rt.alloc(),
            |memory: &Memory| -> Result<(), AllocError> { make(&rt, rt.alloc(), memory, call) },
        );
    }
}

// A text is rejected with its first error, and a text without arcs is a graph, even if each allocation fails. None is
// made.
#[test]
fn faults_and_files_without_arcs(rt: HostRuntime) {
    let (text, fault) = NO_PROBLEM_YET;
    let memory = Refusing::new(rt.alloc(), Refusals::since(1));
    expect_same(&rt, parse(&memory, text).err(), Some(fault));
    let mut source = text;
    expect_same(&rt, read_graph(&memory, &mut source).err(), Some(fault));
    let text = b"p sp 0 0\nc".as_slice();
    for (limit, expected) in [(9, Some(ReadFault::TooLong)), (10, None)] {
        let mut source = text;
        expect_same(
            &rt,
            read_graph_upto(&memory, &mut source, limit).err(),
            expected,
        );
    }
    expect_same(&rt, memory.asked(), 0);
}

// After an error the reader returns it from then on, whatever it is fed.
fn expect_memory_again(rt: &impl Abort, mut reader: GrReader<&Memory>) {
    expect_same(rt, reader.feed(b"a 1 2 3\n"), Err(ReadFault::Memory));
    expect_same(rt, reader.feed(b""), Err(ReadFault::Memory));
    expect_same(rt, reader.finish().err(), Some(ReadFault::Memory));
}

// The small net in the other spelling, one byte at a time.
fn read_bytes<'a>(
    rt: &impl Abort,
    memory: &'a Memory,
) -> Result<Result<Graph<&'a Memory>, ReadFault>, AllocError> {
    let mut reader = GrReader::new(memory, MAX_BYTES);
    for i in 0..SPELLED_ELSE.len() {
        if let Err(fault) = reader.feed(&SPELLED_ELSE[i..i + 1]) {
            expect_same(rt, fault, ReadFault::Memory);
            expect_memory_again(rt, reader);
            return Err(AllocError);
        }
    }
    Ok(reader.finish())
}

// The first ten bytes of the small net's forest are written into a sink, without an allocation.
fn expect_ten_bytes(
    rt: &impl Abort,
    alloc: Global,
    memory: &Memory,
    sink: Result<FusedSink<&Memory>, AllocError>,
) -> Result<(), AllocError>
    requires { IfOk sink (λ sink. sink.setbacks < 2 ^ 64 - 1) }
{
    let mut sink = sink?;
    let links = few_links(rt, alloc, 6, SMALL_NET.forest);
    let forest = Forest::of_list(links).expect(rt, "ascending");
    let asked = memory.asked();
    expect_same(
        rt,
        write_forest(&mut sink, 6, &forest),
        Err(WriteFault { written: 10 }),
    );
    expect_same(rt, sink.held(), b"p sp 6 5\na".as_slice());
    expect_same(rt, memory.asked(), asked);
    Ok(())
}

// Texts that end without and with a line feed. If the last line has none, memory for the arc's link is allocated only
// when the text is known to end there. If it has one, memory is allocated before that.
const LAST_LINES: [(&[u8], Result<(), ReadFault>); 2] = [
    (b"p sp 2 1\na 1 2 3", Ok(())),
    (b"p sp 2 1\na 1 2 3\n", Err(ReadFault::Memory)),
];

fn expect_link(rt: &impl Abort, read: Result<Graph<&Memory>, ReadFault>) -> Result<(), AllocError> {
    let graph = or_refused(rt, read, ReadFault::Memory)?;
    let link = Link::of_arc(1, 2, 3).expect(rt, "a link");
    expect_same(rt, graph.links(), [link].as_slice());
    Ok(())
}

fn read_pieces<'a>(memory: &'a Memory, pieces: &[&[u8]]) -> Result<Graph<&'a Memory>, ReadFault> {
    let mut reader = GrReader::new(memory, MAX_BYTES);
    for piece in pieces {
        reader.feed(piece)?;
    }
    reader.finish()
}

#[test]
fn a_last_line_without_its_end(rt: HostRuntime) {
    for (text, fed) in LAST_LINES {
        expect_each(
            &rt,
            rt.alloc(),
            |memory: &Memory| -> Result<(), AllocError> {
                let mut source = text;
                expect_link(&rt, parse(memory, text))?;
                expect_link(&rt, read_graph(memory, &mut source))?;
                let (first, second) = text.split_at(text.len() / 2);
                expect_link(&rt, read_pieces(memory, &[first, second]))
            },
        );
        let memory = Refusing::new(rt.alloc(), Refusals::since(1));
        let mut reader = GrReader::new(&memory, MAX_BYTES);
        expect_same(&rt, reader.feed(text), fed);
        expect_same(&rt, reader.finish().err(), Some(ReadFault::Memory));
    }
}
