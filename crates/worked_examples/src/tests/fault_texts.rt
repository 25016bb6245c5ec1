// The texts of the errors of files and of runs.
use super::same::expect_same;
use forest_run::{Report, RunFault};
use gr_text::{GrFault, GrKind, ReadFault, WriteFault};
use link_key::{CutFault, Link};
use std::alloc::Global;
use std::fmt::Display;
use std::process::Abort;

fn expect_text(rt: &impl Abort, alloc: Global, shown: &impl Display, expected: &str) {
    let text = format!(in alloc; "{shown}").expect(rt, "memory");
    expect_same(rt, text.as_str(), expected);
}

#[test]
fn of_each_faulty_line(rt: HostRuntime) {
    let texts = [
        (GrKind::UnknownLine, "line 7: UnknownLine"),
        (GrKind::NoProblemYet, "line 7: NoProblemYet"),
        (GrKind::SecondProblem, "line 7: SecondProblem"),
        (GrKind::BadProblem, "line 7: BadProblem"),
        (GrKind::TooLarge, "line 7: TooLarge"),
        (GrKind::BadArc, "line 7: BadArc"),
        (GrKind::EndOutOfRange, "line 7: EndOutOfRange"),
        (GrKind::WeightOutOfRange, "line 7: WeightOutOfRange"),
        (GrKind::TooManyArcs, "line 7: TooManyArcs"),
        (GrKind::MissingProblem, "line 7: MissingProblem"),
        (GrKind::MissingArcs, "line 7: MissingArcs"),
    ];
    for (kind, text) in texts {
        let fault = GrFault { line: 7, kind };
        expect_text(&rt, rt.alloc(), &fault, text);
        expect_text(&rt, rt.alloc(), &ReadFault::Gr(fault), text);
        expect_text(&rt, rt.alloc(), &RunFault::Read(ReadFault::Gr(fault)), text);
    }
}

#[test]
fn of_reading_writing_and_running(rt: HostRuntime) {
    let texts = [
        (ReadFault::Source { line: 2 }, "line 2: read failed"),
        (ReadFault::TooLong, "file is too long"),
        (ReadFault::Memory, "no memory"),
    ];
    for (fault, text) in texts {
        expect_text(&rt, rt.alloc(), &fault, text);
        expect_text(&rt, rt.alloc(), &RunFault::Read(fault), text);
    }
    expect_text(&rt, rt.alloc(), &RunFault::Memory, "no memory");
    let past = RunFault::Rounds { round: 2 };
    expect_text(&rt, rt.alloc(), &past, "round 2 is past the bound");
    let link = Link::of_arc(2, 1, 17).expect(&rt, "ends that differ");
    let missed = RunFault::Missed { link };
    expect_text(&rt, rt.alloc(), &missed, "link 1 2 17 was missed");
    let write = "write failed after 10 bytes";
    expect_text(&rt, rt.alloc(), &RunFault::Write { written: 10 }, write);
    expect_text(&rt, rt.alloc(), &WriteFault { written: 10 }, write);
}

#[test]
fn of_each_refused_cut(rt: HostRuntime) {
    let texts = [
        (CutFault::NoShards, "cut refused: NoShards"),
        (CutFault::TooManyShards, "cut refused: TooManyShards"),
        (CutFault::ShardTooLarge, "cut refused: ShardTooLarge"),
        (CutFault::BadPlaces, "cut refused: BadPlaces"),
        (CutFault::Memory, "no memory"),
    ];
    for (fault, text) in texts {
        expect_text(&rt, rt.alloc(), &RunFault::Cut(fault), text);
    }
}

#[test]
fn of_a_report(rt: HostRuntime) {
    let report = Report {
        vertices: 1,
        links: 2,
        rounds: 3,
        shards: 4,
        asked: 5,
        answered: 6,
        alone: 7,
        closed: 8,
        total: -9,
    };
    let text = "vertices=1 links=2 rounds=3 shards=4 asked=5 answered=6 alone=7 closed=8 total=-9";
    expect_text(&rt, rt.alloc(), &report, text);
}
