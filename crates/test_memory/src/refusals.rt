ghost use Rattle.std.specs.Prelude.{◌≡◌, ℕ, ◌<◌, ◌≤◌, ◌^◌, ◌↔◌, IsTrue};
ghost use Rattle.test_memory.specs.Refused.{IsRefused};

/// Which allocations are made to fail: those whose numbers are from `first` to `last`. Numbers begin at 1.
#[derive(Clone, Copy, Debug, PartialEq, Eq)]
pub struct Refusals {
    pub first: u64,
    pub last: u64,
}

impl Refusals {
    /// No allocation fails.
    pub fn none() -> Refusals
        ensures { (number : ℕ) → ¬ IsRefused result number }
    {
        Refusals { first: 1, last: 0 }
    }

    /// Only the allocation with this number fails.
    pub fn only(number: u64) -> Refusals
        ensures { (other : ℕ) → IsRefused result other ↔ (other ≡ number) }
    {
        Refusals {
            first: number,
            last: number,
        }
    }

    /// The allocation with this number fails, and so does each later one.
    pub fn since(number: u64) -> Refusals
        ensures { (other : ℕ) → other < 2 ^ 64 → IsRefused result other ↔ (number ≤ other) }
    {
        Refusals {
            first: number,
            last: u64::MAX,
        }
    }

    pub(crate) fn include(self, number: u64) -> bool
        ensures { IsTrue result ↔ IsRefused self number }
    {
        self.first <= number && number <= self.last
    }
}
