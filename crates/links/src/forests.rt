ghost use Rattle.std.specs.Prelude.{◌≡◌, ◌↔◌, IsSome, IfSome, IsTrue};
ghost use Rattle.links.specs.Link.{IsAscending};
ghost use Rattle.links.specs.Least.{sum_of_weights, IsTotalOf};

use crate::links::Link;
use std::alloc::{Allocator, Global};
use std::marker::Model;

/// Links in strictly ascending order of their keys: the form in which a forest is passed on and written.
///
/// The type doesn't promise that the links are the forest of any graph. The contract of the call that made the value
/// does.
#[derive(Drop)]
pub struct Forest<A: Allocator = Global> {
    links: Vec<Link, A>,
}

impl<A: Allocator> Model for Forest<A> {
    ghost use Rattle.std.specs.Prelude.{List};
    ghost use Rattle.links.specs.Link.{IsAscending};
    ghost use Rattle.links.specs.declared.links.Link.{Link};

    ghost Value = { List Link };

    ghost view = { λ f. f.links.items };

    ghost invariant = { λ f. IsAscending f.links.items };
}

/// Returns whether each link has a smaller key than the next, and so than all later ones. Looks at each link once.
pub fn is_ascending(links: &[Link]) -> bool
    ensures { IsTrue result ↔ IsAscending links.now }
{
    links.is_sorted_by(|earlier, later| earlier < later)
}

impl<A: Allocator> Forest<A> {
    /// Makes a forest of a list whose keys ascend strictly. If they don't, returns `None` and drops the list. Looks at
    /// each link once, allocates nothing, and keeps the list's memory.
    pub fn of_list(links: Vec<Link, A>) -> Option<Self>
        ensures exactly_ascending { IsSome result ↔ IsAscending links.items }
        ensures same_links { IfSome result (λ forest. forest ≡ links.items) }
    {
        if is_ascending(links.as_slice()) {
            Some(Forest { links })
        } else {
            None
        }
    }

    /// Makes a forest of links that the caller knows to ascend strictly. Allocates nothing, and keeps the list's
    /// memory.
    pub fn of_ascending(links: Vec<Link, A>) -> Self
        requires { IsAscending links.items }
        ensures { result ≡ links.items }
    {
        Forest { links }
    }

    /// Returns the sum of the weights of the forest's links. Looks at each link once and allocates nothing. The sum
    /// never overflows, because a list in memory has fewer than 2^64 links.
    pub fn total(&self) -> i128
        ensures sum { result ≡ sum_of_weights self.now }
        ensures total { IsTotalOf self.now result }
    {
        let mut total = 0;
        for link in self.links.as_slice() {
            total += i128::from(link.weight);
        }
        total
    }

    /// The links in ascending order, each once.
    pub fn links(&self) -> &[Link]
        ensures links { result.now ≡ self.now }
        ensures ascending { IsAscending self.now }
    {
        self.links.as_slice()
    }
}
