//! The best link so far for each label.
ghost use Rattle.std.specs.Prelude.{◌≡◌, ◌+◌, ◌^◌, ◌<◌, ◌≤◌, [], length, replicate, Some, IfOk, OnOk};
ghost use Rattle.limits.specs.declared.TheConstants.{MAX_SHARD_LINKS};
ghost use Rattle.shard_scans.specs.Scanning.{no_best, SaysBest};
ghost use Rattle.shard_scans.specs.Tables.{KeepsAt, ArePlacesBelow};

use crate::scanning::{Best, NO_KEY, NO_PLACE, keep_lesser};
use links::Link;
use std::alloc::{AllocError, Allocator};
use std::marker::Model;

// An entry for each label, or for the number of each. Contracts see the entries.
#[derive(Drop)]
pub(crate) struct Table<A: Allocator> {
    bests: Vec<Best, A>,
}

impl<A: Allocator> Model for Table<A> {
    ghost use Rattle.std.specs.Prelude.{List};
    ghost use Rattle.shard_scans.specs.declared.scanning.Best.{Best};

    ghost Value = { List Best };

    ghost view = { λ t. t.bests.items };
}

impl<A: Allocator + Copy> Table<A> {
    // A table of no labels. It allocates nothing.
    pub(crate) fn new(alloc: A) -> Self
        ensures { result ≡ [] }
    {
        Table {
            bests: Vec::new(alloc),
        }
    }

    // Makes empty entries for this many labels.
    pub(crate) fn clear(&mut self, labels: usize) -> Result<(), AllocError>
        ensures none_yet { OnOk result (self.new ≡ replicate labels no_best) }
    {
        let none = Best {
            key: NO_KEY,
            place: NO_PLACE,
        };
        self.bests.clear();
        self.bests.resize(labels, none)
    }

    pub(crate) fn allocator(&self) -> A {
        *self.bests.allocator()
    }

    pub(crate) fn bests(&self) -> &[Best]
        ensures { result.now ≡ self.now }
    {
        self.bests.as_slice()
    }

    // Stores the next link for a label if it is less than the one stored there. `before` is one less than the label.
    #[inline]
    pub(crate) fn keep(&mut self, before: usize, links: &[Link], next: Best)
        requires few_links { length links.now ≤ MAX_SHARD_LINKS }
        requires next { SaysBest links.now next (Some next.place) }
        requires label { before < length self.old }
        ensures kept { KeepsAt links.now next before self.old self.new }
    {
        keep_lesser(&mut self.bests[before], links, next);
    }

    // Returns the labels that have a best link, each with that link's index, in ascending order.
    pub(crate) fn gather(&self) -> Result<Vec<(u32, u32), A>, AllocError>
        requires few { length self.now < 2 ^ 32 }
        ensures places { IfOk result (λ pairs. ArePlacesBelow self.now (length self.now + 1) pairs.items) }
    {
        let bests = self.bests.as_slice();
        let mut pairs = Vec::new(*self.bests.allocator());
        for before in 0..bests.len() {
            let place = bests[before].place;
            if place != NO_PLACE {
                pairs.push((before as u32 + 1, place))?;
            }
        }
        Ok(pairs)
    }
}
