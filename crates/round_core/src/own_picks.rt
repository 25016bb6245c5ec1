//! Takes the least link that is offered for each component, by parts of the components, so that no two threads write
//! the same pick. Contracts say only that a pick was offered. That none is less is checked later (`tally`), so here
//! only the time depends on it.
ghost use Rattle.std.specs.Prelude.{All};
ghost use Rattle.round_core.specs.OwnPicks.{HavePlaces, IsPlaced, IsOfferedBy, IsOfferedIn, AreTakenFrom};

use crate::picks::key_number;
use links::{Answer, Cut, Link};
use std::alloc::Allocator;
use std::thread;
use std::thread::Threads;

// The number of parts into which the labels are split.
const PARTS: usize = 4;

// Replaces the number of each label by that of the least link that the answers offer for it, if that is less.
pub(crate) fn take_by_parts<R: Threads + Sync, A: Allocator + Sync>(
    rt: &R,
    numbers: &mut [u128],
    cut: &Cut<A>,
    answers: &[Answer<A>],
)
    requires placed { All (IsPlaced cut.now) answers.now }
    ensures { AreTakenFrom (IsOfferedIn cut.now answers.now) 0 numbers.old numbers.new }
{
    let size = numbers.len().div_ceil(PARTS).max(1);
    thread::for_each_chunk_mut(
        rt,
        numbers,
        size,
        &|start: usize, part: &mut [u128]|
            requires { All (IsPlaced cut.now) answers.now }
            ensures { AreTakenFrom (IsOfferedIn cut.entry.now answers.entry.now) start part.entry.now part.exit.now }
        { take_part(cut, answers, start, part) },
    );
}

// The same for the labels after the first `start`.
fn take_part<A: Allocator>(cut: &Cut<A>, answers: &[Answer<A>], start: usize, part: &mut [u128])
    requires placed { All (IsPlaced cut.now) answers.now }
    ensures { AreTakenFrom (IsOfferedIn cut.now answers.now) start part.old part.new }
{
    for answer in answers {
        let links = cut.shard(answer.shard).links;
        take_each(links, answer.offers.pairs(), start, part);
    }
}

// The same for the links that the offers about one shard name. Offers ascend, so those for a part are next to each
// other.
fn take_each(links: &[Link], pairs: &[(u32, u32)], start: usize, part: &mut [u128])
    requires places { HavePlaces links.now pairs.now }
    ensures { AreTakenFrom (IsOfferedBy links.now pairs.now) start part.old part.new }
{
    let first = pairs.partition_point(|pair| pair.0 as usize <= start);
    for i in first..pairs.len() {
        let (label, place) = pairs[i];
        let label = label as usize;
        if label <= start || part.len() < label - start {
            return;
        }
        let number = key_number(links[place as usize]);
        let own = label - start - 1;
        part[own] = part[own].min(number);
    }
}
