ghost use Rattle.std.specs.Prelude.{◌≡◌};
ghost use Rattle.test_memory.specs.Refused.{IsSaidOf};

use crate::counter::Counter;
use crate::refusals::Refusals;

// Numbers the allocations from 1 in the order in which they are requested, and decides which of them fail.
#[derive(Drop)]
pub(crate) struct Gate {
    asked: Counter,
    refusals: Refusals,
}

impl Gate {
    pub(crate) fn new(refusals: Refusals) -> Gate
        ensures { result.refusals ≡ refusals }
    {
        Gate {
            asked: Counter::new(),
            refusals,
        }
    }

    // Returns whether the next allocation is made to fail. The clause doesn't say that the allocation has the next
    // number.
    pub(crate) fn refuses_next(&self) -> bool
        ensures { IsSaidOf self.now.refusals result }
    {
        let before = self.asked.next();
        self.refusals.include(before.saturating_add(1))
    }

    pub(crate) fn asked(&self) -> u64 {
        self.asked.so_far()
    }

    pub(crate) fn refusals(&self) -> Refusals
        ensures { result ≡ self.now.refusals }
    {
        self.refusals
    }
}
