ghost use Rattle.std.specs.Prelude.{◌≡◌, ℕ, ◌+◌, ◌<◌, ◌≤◌, ◌↔◌, Some, IsTrue};
ghost use Rattle.test_memory.specs.Found.{IsFoundOf, IsWithin};

use crate::refusals::Refusals;
use crate::refusing::Refusing;
use std::alloc::Allocator;

/// What was found about some work whose allocations were made to fail in turn.
#[derive(Clone, Copy, Debug, PartialEq, Eq)]
pub enum Found {
    /// The work makes this many allocations. It fails if all allocations from any one of them on fail, and leaves no
    /// block.
    Each(u64),
    /// The work succeeded although each allocation from this number on failed.
    Passes(u64),
    /// The work failed although no allocation was made to fail: it makes fewer than this number.
    Fails(u64),
    /// A block of the work still existed after a run in which the allocation with this number was to fail.
    Leaks(u64),
    /// The work makes at least as many allocations as were to be tried.
    More,
}

// What one run did: whether it succeeded, how many allocations it requested, and how many of its blocks existed
// afterwards.
#[derive(Clone, Copy)]
pub(crate) struct Ran {
    pub(crate) well: bool,
    pub(crate) asked: u64,
    pub(crate) live: u64,
}

// What a run shows in which all allocations from `number` on were made to fail, if the search ends with it.
fn judge(number: u64, ran: Ran) -> Option<Found>
    requires from_one { 0 < number }
    ensures { (found : _) → result ≡ Some found ↔ IsFoundOf number ran found }
{
    let refused = ran.asked >= number;
    if ran.live > 0 {
        Some(Found::Leaks(number))
    } else if ran.well && refused {
        Some(Found::Passes(number))
    } else if !ran.well && !refused {
        Some(Found::Fails(number))
    } else if ran.well {
        Some(Found::Each(number - 1))
    } else {
        None
    }
}

fn run<B, E, F>(inner: B, refusals: Refusals, work: &F) -> Ran
where
    B: Allocator + Copy,
    E: Drop,
    F: Fn(&Refusing<B>) -> Result<(), E>,
    requires { F.IsAlwaysCallable work.now }
{
    let memory = Refusing::new(inner, refusals);
    let well = work(&memory).is_ok();
    Ran {
        well,
        asked: memory.asked(),
        live: memory.live(),
    }
}

/// Runs the work while its allocations are made to fail in turn, and returns what was found.
///
/// For each number from 1 on, up to `most`, the work runs twice, until it requests fewer allocations than that number.
/// In the first run, all allocations from that number on fail, and the work must fail if one of them was requested. In
/// the second, only the allocation with that number fails. Then the work may succeed: a collection that can't get
/// memory for many items may request less. After each run, no block may be left.
///
/// This takes two runs for each allocation, and one more. Write the result's type on the last closure, as in
/// `|memory: &Refusing<Global>| -> Result<(), AllocError> { .. }`.
pub fn refuse_each<B, E, F>(inner: B, most: u64, work: F) -> Found
where
    B: Allocator + Copy,
    E: Drop,
    F: Fn(&Refusing<B>) -> Result<(), E>,
    requires callable { F.IsAlwaysCallable work }
    ensures within { IsWithin most result }
{
    for before in 0..most {
        let number = before + 1;
        if let Some(found) = judge(number, run(inner, Refusals::since(number), &work)) {
            return found;
        }
        if run(inner, Refusals::only(number), &work).live > 0 {
            return Found::Leaks(number);
        }
    }
    Found::More
}
