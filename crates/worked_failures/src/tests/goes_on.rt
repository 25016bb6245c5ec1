// What continues after a failure. A session continues after an ask for which it had no memory, and reports that. A
// round continues after a rejected answer, of which nothing is kept.
use super::frame_texts::{ANSWER, ASK, HELLO, NO_MEMORY, SHARD};
use super::in_turn::{Memory, was_refused};
use super::lists::{even_cut, few_links};
use super::lost_lines::one_line;
use super::runs::run_over;
use super::same::expect_same;
use link_key::{Answer, Cut, Labels, Offers};
use ports::ScriptLine;
use round_core::{Refusal, RoundBook};
use std::alloc::Global;
use std::process::Abort;
use std::thread::Threads;
use test_memory::{Refusals, Refusing};
use worked_graphs::{SMALL_NET, all_have_labels};
use worker_engine::serve;

const MOST: u64 = 100;

fn joined(rt: &impl Abort, alloc: Global, parts: &[&[u8]]) -> Vec<u8> {
    let mut bytes = Vec::new(alloc);
    for part in parts {
        bytes.extend_from_slice(part).expect(rt, "memory");
    }
    bytes
}

// A session gets a shard and two asks for it, and this one allocation fails. Returns what the session writes. Returns
// `None` if it fails, or makes fewer allocations.
fn written(rt: &(impl Abort + Threads + Sync), alloc: Global, number: u64) -> Option<Vec<u8>> {
    let heard = joined(rt, alloc, &[&SHARD, &ASK, &ASK]);
    let memory = Refusing::new(alloc, Refusals::only(number));
    let mut source = heard.as_slice();
    let mut sink = Vec::new(alloc);
    let served = serve(rt, &memory, 0, &mut source, &mut sink).ok()?;
    let replies = served.answers.wrapping_add(served.faults);
    expect_same(rt, (served.frames, replies), (3, 2));
    if was_refused(&memory) {
        Some(sink)
    } else {
        None
    }
}

// Some allocation affects only the first ask, and some only the second.
#[test]
fn a_session_goes_on_behind_an_ask_without_memory(rt: HostRuntime) {
    let first = joined(&rt, rt.alloc(), &[&HELLO, &NO_MEMORY, &ANSWER]);
    let second = joined(&rt, rt.alloc(), &[&HELLO, &ANSWER, &NO_MEMORY]);
    let mut found = (false, false);
    for number in 1..MOST {
        if let Some(text) = written(&rt, rt.alloc(), number) {
            found.0 = found.0 || text.as_slice() == first.as_slice();
            found.1 = found.1 || text.as_slice() == second.as_slice();
        }
    }
    expect_same(&rt, found, (true, true));
}

// The book rejects an answer to an ask of shard 0, with this round, this shard and this offer. The memory of the answer
// is freed.
fn expect_refused<'a>(
    rt: &impl Abort,
    memory: &'a Memory,
    book: &mut RoundBook<'_, &'a Memory>,
    answer: (u32, u32, (u32, u32)),
    cause: Refusal,
) {
    let (round, shard, offer) = answer;
    assert!(rt; book.len() > 0);
    let before = (memory.live(), memory.bytes().now);
    let pairs = [offer].to_vec(memory).expect(rt, "memory");
    let offers = Offers::of_pairs(pairs).expect(rt, "offers");
    let answer = Answer {
        round,
        shard,
        offers,
    };
    let refused = book.take(0, answer).err();
    let behind = (memory.live(), memory.bytes().now);
    expect_same(rt, (refused, behind), (Some(cause), before));
}

// The first round over two shards of the small net. The first shard has the links between 1 and 2, 1 and 3, 2 and 4,
// and 3 and 5.
fn expect_refusals<'a>(rt: &impl Abort, memory: &'a Memory, cut: &Cut<&'a Memory>) {
    let labels = Labels::apart(memory, 6).expect(rt, "memory");
    assert!(rt; all_have_labels(cut, labels.n()));
    let mut book = RoundBook::open(memory, 1, cut, &labels).expect(rt, "memory");
    for (answer, cause) in [
        ((2, 0, (1, 1)), Refusal::Stale),
        ((1, 1, (1, 1)), Refusal::Stranger),
        ((1, 0, (1, 4)), Refusal::NotALink),
        ((1, 0, (6, 1)), Refusal::NotALink),
    ] {
        expect_refused(rt, memory, &mut book, answer, cause);
    }
    let pairs = [(1, 1)].to_vec(memory).expect(rt, "memory");
    let taken = Answer {
        round: 1,
        shard: 0,
        offers: Offers::of_pairs(pairs).expect(rt, "offers"),
    };
    assert!(rt; book.len() > 0);
    expect_same(rt, book.take(0, taken), Ok(()));
    expect_refused(rt, memory, &mut book, (1, 0, (1, 1)), Refusal::Double);
}

#[test]
fn nothing_is_kept_of_an_answer_that_is_refused(rt: HostRuntime) {
    let memory = Refusing::new(rt.alloc(), Refusals::none());
    let links = few_links(&rt, rt.alloc(), 6, SMALL_NET.arcs);
    let cut = even_cut(&rt, &memory, links.as_slice(), 6, 2).expect(&rt, "memory");
    expect_refusals(&rt, &memory, &cut);
}

// The answer of round 1 for shard 0 that offers vertex 1 the link at index 7 of the small net, which joins 5 and 6.
const NO_LINK_OF_1: [u8; 25] = [
    4, 0, 0, 0, 20, 0, 0, 0, 1, 0, 0, 0, 0, 0, 0, 0, 1, 0, 0, 0, 1, 0, 0, 0, 7,
];

// A run closes the line of a worker that answers like this, scans the shard itself, and leaves no block allocated.
#[test]
fn nothing_is_kept_of_a_run_over_a_worker_that_lies(rt: HostRuntime) {
    let memory = Refusing::new(rt.alloc(), Refusals::none());
    let script = joined(&rt, rt.alloc(), &[&HELLO, &NO_LINK_OF_1]);
    let line = ScriptLine::new(script.as_slice().to_vec(&memory).expect(&rt, "memory"));
    let lines = one_line(&memory, line).expect(&rt, "memory");
    let mut source = SMALL_NET.file;
    let mut text = Vec::new(rt.alloc());
    let (ended, _) = run_over(&rt, lines, 1, &mut source, &mut text);
    expect_same(&rt, text.as_slice(), SMALL_NET.text);
    let report = ended.expect(&rt, "a forest");
    let counts = (report.asked, report.answered, report.alone, report.closed);
    expect_same(&rt, counts, (1, 0, 3, 1));
    expect_same(&rt, (memory.live(), memory.bytes().now), (0, 0));
}
