ghost use Rattle.std.specs.Prelude.{◌≡◌, ◌↔◌, IsSome, IfSome, IsTrue};
ghost use Rattle.links.specs.Offers.{AreOffers};

use std::alloc::{Allocator, Global};
use std::marker::Model;

/// The links that a scan of a shard offers: for some components, the index in the shard of the link that is offered for
/// the component. Indices are counted from 0, and the components ascend strictly.
#[derive(Drop)]
pub struct Offers<A: Allocator = Global> {
    pairs: Vec<(u32, u32), A>,
}

impl<A: Allocator> Model for Offers<A> {
    ghost use Rattle.std.specs.Prelude.{List};
    ghost use Rattle.links.specs.Offers.{Offer, AreOffers};

    ghost Value = { List Offer };

    ghost view = { λ s. s.pairs.items };

    ghost invariant = { λ s. AreOffers s.pairs.items };
}

impl<A: Allocator> Offers<A> {
    /// Makes offers of a list of pairs (component, index). If the components don't ascend strictly, returns `None` and
    /// drops the list. Looks at each pair once, allocates nothing, and keeps the list's memory.
    pub fn of_pairs(pairs: Vec<(u32, u32), A>) -> Option<Self>
        ensures exactly_ascending { IsSome result ↔ AreOffers pairs.items }
        ensures same_pairs { IfSome result (λ offers. offers ≡ pairs.items) }
    {
        if are_offers(pairs.as_slice()) {
            Some(Offers { pairs })
        } else {
            None
        }
    }

    /// Makes offers of a list of pairs (component, index) whose components the caller knows to ascend strictly. Looks
    /// at no pair, takes constant time, allocates nothing, and keeps the list's memory.
    pub fn of_known(pairs: Vec<(u32, u32), A>) -> Self
        requires ascending { AreOffers pairs.items }
        ensures same_pairs { result ≡ pairs.items }
    {
        Offers { pairs }
    }

    /// The pairs (component, index), in ascending order of the components.
    pub fn pairs(&self) -> &[(u32, u32)]
        ensures pairs { result.now ≡ self.now }
        ensures ascending { AreOffers self.now }
    {
        self.pairs.as_slice()
    }
}

fn are_offers(pairs: &[(u32, u32)]) -> bool
    ensures { IsTrue result ↔ AreOffers pairs.now }
{
    pairs.is_sorted_by(|earlier, later| earlier.0 < later.0)
}
