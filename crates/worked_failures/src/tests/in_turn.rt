// The searches: a call is made with each of its allocations failing in turn, until it makes fewer.
use super::same::expect_same;
use std::alloc::{AllocError, Global};
use std::fmt::Debug;
use std::process::Abort;
use test_memory::{Found, Refusals, Refusing, refuse_each};

// More allocations than any call here makes.
const MOST: u64 = 2000;

/// The allocator of one run, some of whose allocations fail.
pub(crate) type Memory = Refusing<Global>;

// Returns the value of the call, if there is one. The only error that is allowed is this one, which stands for out of
// memory.
pub(crate) fn or_refused<T: Drop, E: PartialEq + Debug + Drop>(
    rt: &impl Abort,
    outcome: Result<T, E>,
    memory: E,
) -> Result<T, AllocError> {
    match outcome {
        Ok(answer) => Ok(answer),
        Err(fault) => {
            expect_same(rt, fault, memory);
            Err(AllocError)
        }
    }
}

// The call fails if an allocation and all that follow fail. It leaves no block, and makes at least one allocation. The
// call itself compares its results. Returns how many allocations it makes.
pub(crate) fn expect_each<F>(rt: &impl Abort, alloc: Global, call: F) -> u64
where
    F: Fn(&Memory) -> Result<(), AllocError>,
    requires callable { F.IsAlwaysCallable call }
{
    match refuse_each(alloc, MOST, call) {
        Found::Each(count) if count > 0 => count,
        found => {
            expect_same(rt, found, Found::Each(1));
            0
        }
    }
}

// The same for a call that may succeed although an allocation failed, because it works in another way then. It fails
// only if an allocation failed, and leaves no block.
pub(crate) fn expect_any<F>(rt: &impl Abort, alloc: Global, call: F) -> u64
where
    F: Fn(&Memory) -> Result<(), AllocError>,
    requires callable { F.IsAlwaysCallable call }
{
    for number in 1..MOST {
        let mut most = 0u64;
        for refusals in [Refusals::only(number), Refusals::since(number)] {
            let memory = Refusing::new(alloc, refusals);
            let went = call(&memory);
            expect_same(rt, (number, memory.live()), (number, 0));
            let asked = memory.asked();
            expect_same(rt, went.is_ok() || asked >= number, true);
            most = most.max(asked);
        }
        if most < number {
            expect_same(rt, number > 1, true);
            return number.wrapping_sub(1);
        }
    }
    assert!(rt; false);
    0
}

// Whether an allocation of this allocator failed.
pub(crate) fn was_refused(memory: &Memory) -> bool {
    memory.asked() >= memory.refusals().first
}
