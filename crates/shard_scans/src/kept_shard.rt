//! A shard that is scanned again and again, with a list of those of its links that are live.
ghost use Rattle.std.specs.Prelude.{◌≡◌, ◌≤◌, ◌↔◌, length, IfOk, IsTrue};
ghost use Rattle.links.specs.Link.{EndsUpTo};
ghost use Rattle.shard_scans.specs.Live.{IsLive, IsAllLive, IsGreatestEnd, AreOffersOf};

use crate::listed::Listed;
use crate::parallel::halvings_of;
use crate::scanning::Scanner;
use limits::MAX_SHARD_LINKS;
use links::{Labels, Link, Offers};
use std::alloc::{AllocError, Allocator, Global};
use std::marker::Model;
use std::thread::Threads;

/// A shard that is scanned again and again under labels that coarsen.
///
/// The first scan lists the live links, and later scans pass over that list alone. A link that leaves no label is
/// removed from the list. So is a link if the one before it in the list connects the same two labels and is no greater.
/// A first scan by threads lists nothing, and the next scan does.
///
/// Contracts see the links and, if they are listed, the live ones; if they aren't, all links are live.
///
/// It stores the links. The list takes 12 bytes per link while it is made, and later 12 per live link and 4 per label
/// that live links have.
#[derive(Drop)]
pub struct KeptShard<A: Allocator = Global> {
    links: Vec<Link, A>,
    // the greatest endpoint of a link, or 0 if there are no links
    greatest: u32,
    // `None` if all links are live
    live: Option<Listed<A>>,
    // whether the links were scanned since all were made live
    scanned: bool,
}

impl<A: Allocator> Model for KeptShard<A> {
    ghost use Rattle.std.specs.Prelude.{◌≤◌, length, IfSome};
    ghost use Rattle.std.specs.Option.{option_map};
    ghost use Rattle.limits.specs.declared.TheConstants.{MAX_SHARD_LINKS};
    ghost use Rattle.shard_scans.specs.Live.{KeptShardState, IsGreatestEnd};
    ghost use Rattle.shard_scans.specs.Numbers.{shown, HaveNames};

    ghost Value = { KeptShardState };

    ghost view = { λ h. record { links = h.links.items; live = option_map (λ it. shown it.names.items it.links.items) h.live } };

    ghost invariant = { λ h. (length h.links.items ≤ MAX_SHARD_LINKS) × IsGreatestEnd h.links.items h.greatest
        × IfSome h.live (λ it. HaveNames it.names.items it.links.items) };
}

impl<A: Allocator + Copy> KeptShard<A> {
    /// A shard with these links, in their order, all of them live. It uses the list's memory and allocates none. It
    /// reads each link once.
    pub fn new(links: Vec<Link, A>) -> Self
        requires few_links { length links.items ≤ MAX_SHARD_LINKS }
        ensures links { result.links ≡ links.items }
        ensures live { IsAllLive result }
    {
        let greatest = greatest_end(links.as_slice());
        KeptShard {
            links,
            greatest,
            live: None,
            scanned: false,
        }
    }

    /// Returns the offers that [`scan`](crate::scan) returns for the links under these labels, or `None` if an endpoint
    /// of a link is greater than the number of labels. Links that aren't live have to offer nothing under the labels.
    /// This holds if all links are live, or if the labels coarsen those of the previous scan ([`laws`](crate::laws)).
    ///
    /// With m live links and n vertices, it takes O(m + n) time. The labels that live links have are numbered, and the
    /// scanner's table takes 8 bytes for each of them. The scanner's marks take a quarter of a byte per vertex. In
    /// addition, there are the list, 8 bytes per offer, and until the call returns 8 bytes for each number of the
    /// previous scan. It fails only if it is out of memory, and can then be called again.
    pub fn offers(
        &mut self,
        scanner: &mut Scanner<A>,
        labels: &Labels<A>,
    ) -> Result<Option<Offers<A>>, AllocError>
        requires { IsLive labels.now self.old }
        ensures offers { IfOk result (AreOffersOf self.old.links labels.now) }
        ensures few_links { length self.old.links ≤ MAX_SHARD_LINKS }
        ensures links { self.new.links ≡ self.old.links }
        ensures live { IsLive labels.now self.new }
    {
        if !self.has_ends_up_to(labels.n()) {
            return Ok(None);
        }
        if let Some(listed) = &mut self.live {
            let offers = scanner.scan_listed(self.links.as_slice(), listed, labels)?;
            return Ok(Some(offers));
        }
        let (offers, mut listed) = scanner.scan_and_list(self.links.as_slice(), labels)?;
        listed.links.shrink_to_fit();
        self.live = Some(listed);
        self.scanned = true;
        Ok(Some(offers))
    }
}

impl<A: Allocator + Copy + Send + Sync> KeptShard<A> {
    /// Returns the same offers as [`offers`](KeptShard::offers). The first scan after all links were made live is done
    /// by threads, if there are enough links for [`scan_par`](crate::scan_par). That scan lists no live links.
    ///
    /// A scan by threads takes 8 bytes per vertex for each part. The call fails only if it is out of memory, and can
    /// then be made again.
    pub fn offers_par<R: Threads + Sync>(
        &mut self,
        rt: &R,
        scanner: &mut Scanner<A>,
        labels: &Labels<A>,
    ) -> Result<Option<Offers<A>>, AllocError>
        requires { IsLive labels.now self.old }
        ensures offers { IfOk result (AreOffersOf self.old.links labels.now) }
        ensures few_links { length self.old.links ≤ MAX_SHARD_LINKS }
        ensures links { self.new.links ≡ self.old.links }
        ensures live { IsLive labels.now self.new }
    {
        if self.scanned || halvings_of(rt, self.links.len(), labels.as_slice().len()) == 0 {
            return self.offers(scanner, labels);
        }
        if !self.has_ends_up_to(labels.n()) {
            return Ok(None);
        }
        let offers = scanner.scan_par(rt, self.links.as_slice(), labels)?;
        self.scanned = true;
        Ok(Some(offers))
    }
}

impl<A: Allocator> KeptShard<A> {
    // Whether each endpoint of a link is one of the vertices 1 to n. It reads no link.
    fn has_ends_up_to(&self, n: u32) -> bool
        ensures ends { IsTrue result ↔ EndsUpTo n self.now.links }
        ensures few_links { length self.now.links ≤ MAX_SHARD_LINKS }
    {
        self.greatest <= n
    }

    /// Makes all links live, so that any labels may come next, and frees the list of live ones. It allocates nothing.
    pub fn make_all_live(&mut self)
        ensures links { self.new.links ≡ self.old.links }
        ensures live { IsAllLive self.new }
    {
        self.live = None;
        self.scanned = false;
    }
}

fn greatest_end(links: &[Link]) -> u32
    ensures { IsGreatestEnd links.now result }
{
    let mut greatest = 0;
    for link in links {
        greatest = link.high.max(greatest);
    }
    greatest
}
