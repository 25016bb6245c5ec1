// Links that a keeper replaces while a file is read: when the keeper is called, what it leaves, and what follows if it
// fails.
ghost use Rattle.std.specs.Prelude.{◌≡◌, ◌↔◌, ⊤, All, IsTrue};

use super::same::expect_same;
use gr_text::{Keep, KeepAll, ReadFault, read_graph_kept, read_graph_kept_par};
use links::Link;
use std::alloc::{AllocError, Allocator, Global};
use std::process::Abort;

// An arc line, and the link of its arc.
const LINE: &[u8] = b"a 2 1 5\n";

const LINK: Link = Link {
    weight: 5,
    low: 1,
    high: 2,
};

// A keeper that keeps one link if all are equal.
#[derive(Drop)]
struct KeepOne {
    asked: u64,
    dropped: u64,
}

impl<A: Allocator> Keep<A> for KeepOne {
    ghost drops = { ⊤ };

    ghost dropped = { λ k. k.dropped };

    fn keep(
        &mut self,
        _vertices: u32,
        _arcs: u32,
        links: &mut Vec<Link, A>,
    ) -> Result<(), AllocError> {
        self.asked = self.asked.saturating_add(1);
        let first = match links.first() {
            Some(link) => *link,
            None => return Ok(()),
        };
        if are_all(links.as_slice(), first) {
            self.dropped += links.len() as u64 - 1;
            links.truncate(1);
        }
        Ok(())
    }
}

fn are_all(links: &[Link], link: Link) -> bool
    ensures { IsTrue result ↔ All (λ l. l ≡ link) links.now }
{
    links.iter().all(|other| *other == link)
}

// A keeper that is always out of memory.
#[derive(Drop)]
struct Refuses;

impl<A: Allocator> Keep<A> for Refuses {
    ghost drops = { ⊥ };

    ghost dropped = { λ _. 0 };

    fn keep(
        &mut self,
        _vertices: u32,
        _arcs: u32,
        _links: &mut Vec<Link, A>,
    ) -> Result<(), AllocError> {
        Err(AllocError)
    }
}

// A file whose arc lines are all equal.
fn text_of(rt: &impl Abort, alloc: Global, head: &[u8], lines: usize) -> Vec<u8> {
    let mut text = Vec::from_slice(alloc, head).expect(rt, "memory");
    for _ in 0..lines {
        text.extend_from_slice(LINE).expect(rt, "memory");
    }
    text
}

// 80,013 bytes: one piece of 65,536 bytes and one with the rest.
#[test]
fn asks_after_each_piece(rt: HostRuntime) {
    let text = text_of(&rt, rt.alloc(), b"p sp 2 10000\n", 10_000);
    let mut keeper = KeepOne {
        asked: 0,
        dropped: 0,
    };
    let graph = read_graph_kept(&mut keeper, rt.alloc(), &mut text.as_slice()).expect(
        &rt, "a graph",
    );
    expect_same(&rt, (graph.n(), graph.links()), (2, [LINK].as_slice()));
    expect_same(&rt, (keeper.asked, keeper.dropped), (2, 9_999));
}

// 1,600,014 bytes: the first MiB is read in 16 pieces, and the rest in one.
#[test]
fn asks_after_each_piece_by_threads(rt: HostRuntime) {
    let text = text_of(&rt, rt.alloc(), b"p sp 2 200000\n", 200_000);
    let mut keeper = KeepOne {
        asked: 0,
        dropped: 0,
    };
    let mut source = text.as_slice();
    let graph = read_graph_kept_par(&rt, 2, &mut keeper, rt.alloc(), &mut source).expect(
        &rt, "a graph",
    );
    expect_same(&rt, (graph.n(), graph.links()), (2, [LINK].as_slice()));
    expect_same(&rt, (keeper.asked, keeper.dropped), (17, 199_999));
}

// A comment fills the first piece, so the problem line is in the second.
#[test]
fn asks_once_the_problem_line_has_come(rt: HostRuntime) {
    let mut text = Vec::new(rt.alloc());
    text.resize(70_000, b'c').expect(&rt, "memory");
    text.extend_from_slice(b"\np sp 1 0\n")
        .expect(&rt, "memory");
    let mut keeper = KeepOne {
        asked: 0,
        dropped: 0,
    };
    let graph = read_graph_kept(&mut keeper, rt.alloc(), &mut text.as_slice()).expect(
        &rt, "a graph",
    );
    expect_same(&rt, (graph.n(), keeper.asked, keeper.dropped), (1, 1, 0));
}

#[test]
fn keeps_all_or_nothing(rt: HostRuntime) {
    let text = text_of(&rt, rt.alloc(), b"p sp 2 2\n", 2);
    let graph = read_graph_kept(&mut KeepAll, rt.alloc(), &mut text.as_slice()).expect(
        &rt, "a graph",
    );
    expect_same(&rt, graph.links(), [LINK, LINK].as_slice());
    let refused = read_graph_kept(&mut Refuses, rt.alloc(), &mut text.as_slice()).err();
    expect_same(&rt, refused, Some(ReadFault::Memory));
    let refused = read_graph_kept_par(&rt, 2, &mut Refuses, rt.alloc(), &mut text.as_slice()).err();
    expect_same(&rt, refused, Some(ReadFault::Memory));
}
