//! Finds the light offers of a shard in one pass over its links.
ghost use Rattle.std.specs.Prelude.{◌≡◌, ◌≤◌, length, Some, IfOk};
ghost use Rattle.links.specs.Link.{EndsUpTo};
ghost use Rattle.round_theory.specs.Offers.{AreLightOffers};
ghost use Rattle.shard_scans.specs.Scanning.{short_key, SaysBest, KeepsLesser, TakesIn};
ghost use Rattle.shard_scans.specs.Live.{CanBeTakenIn};
ghost use Rattle.shard_scans.specs.Numbers.{AreListed};

use crate::by_numbers::offers_of_listed;
use crate::listed::Listed;
use crate::live::{LiveLink, write_live};
use crate::numbers::{Numbers, mark_each, mark_names};
use crate::parallel::{best_between, halvings_of};
use crate::parts::{Part, Scanned};
use crate::table::Table;
use limits::MAX_SHARD_LINKS;
use links::{Labels, Link, Offers};
use std::alloc::{AllocError, Allocator, Global};
use std::thread::Threads;

// A table's entry for a label: a short key of the weight of the least link so far that leaves the label, and the first
// index of that link. Most comparisons need only the keys, and so read no link.
#[derive(Clone, Copy)]
pub(crate) struct Best {
    pub(crate) key: i32,
    pub(crate) place: u32,
}

// The key and the index of no link: no key is greater, and no shard has so many links.
pub(crate) const NO_KEY: i32 = i32::MAX;

pub(crate) const NO_PLACE: u32 = u32::MAX;

/// Returns the light offers of a shard's links under the labels. For each label with a link of which exactly one
/// endpoint has it, that is the least such link, by the first index at which it is.
///
/// It lists the links that leave a label, and numbers the labels that they leave. With m such links and n vertices, it
/// takes O(m + n) time. It takes 12 bytes per link of the shard, 12 per numbered label, and a quarter of a byte per
/// vertex. An offer takes 8 bytes in a list that doubles as it grows, and up to 24 while the list moves. To reuse what
/// grows with the number of labels, use a [`Scanner`]. It fails only if it is out of memory.
pub fn scan<A: Allocator + Copy, B: Allocator>(
    alloc: A,
    links: &[Link],
    labels: &Labels<B>,
) -> Result<Offers<A>, AllocError>
    requires few_links { length links.now ≤ MAX_SHARD_LINKS }
    requires ends { EndsUpTo (length labels.now) links.now }
    ensures light { IfOk result (AreLightOffers links.now labels.now) }
{
    Scanner::new(alloc).scan(links, labels)
}

/// Returns the same offers as [`scan`], by threads. The links are halved, at most as often as there are processors for.
/// Each part is scanned over a table of its own, and the tables are merged.
///
/// With m links, n vertices and p parts, it takes O(m / p + n p) time. In addition to the offers, it takes 8 bytes per
/// vertex for each part's table. A part has at least as many links as there are vertices. Fewer than 131,072 links are
/// scanned by the caller's thread, and so is a list for which no thread can be started. It fails only if it is out of
/// memory.
pub fn scan_par<R: Threads + Sync, A: Allocator + Copy + Send + Sync, B: Allocator>(
    rt: &R,
    alloc: A,
    links: &[Link],
    labels: &Labels<B>,
) -> Result<Offers<A>, AllocError>
    requires few_links { length links.now ≤ MAX_SHARD_LINKS }
    requires ends { EndsUpTo (length labels.now) links.now }
    ensures light { IfOk result (AreLightOffers links.now labels.now) }
{
    Scanner::new(alloc).scan_par(rt, links, labels)
}

/// Scans one shard after another and reuses the memory for the tables. Only the first scan, or one with more labels
/// than before, allocates memory for them; a scan by threads allocates a table for each part.
#[derive(Drop)]
pub struct Scanner<A: Allocator = Global> {
    table: Table<A>,
    numbers: Numbers<A>,
}

impl<A: Allocator + Copy> Scanner<A> {
    /// A scanner that has scanned nothing. It allocates nothing.
    pub fn new(alloc: A) -> Self {
        Scanner {
            table: Table::new(alloc),
            numbers: Numbers::new(alloc),
        }
    }

    /// Returns the offers that the function [`scan`] returns, whatever was scanned before. It fails only if it is out
    /// of memory, and the scanner can still be used then.
    pub fn scan<B: Allocator>(
        &mut self,
        links: &[Link],
        labels: &Labels<B>,
    ) -> Result<Offers<A>, AllocError>
        requires few_links { length links.now ≤ MAX_SHARD_LINKS }
        requires ends { EndsUpTo (length labels.now) links.now }
        ensures light { IfOk result (AreLightOffers links.now labels.now) }
    {
        let (offers, _) = self.scan_and_list(links, labels)?;
        Ok(offers)
    }

    // Returns the same offers and the live links. The live links are listed first, so the labels of endpoints are
    // looked up once.
    pub(crate) fn scan_and_list<B: Allocator>(
        &mut self,
        links: &[Link],
        labels: &Labels<B>,
    ) -> Result<(Offers<A>, Listed<A>), AllocError>
        requires few_links { length links.now ≤ MAX_SHARD_LINKS }
        requires ends { EndsUpTo (length labels.now) links.now }
        ensures light { IfOk result (λ scanned. AreLightOffers links.now labels.now scanned.0) }
        ensures listed { IfOk result (λ scanned. AreListed links.now labels.now scanned.1.names.items scanned.1.links.items) }
    {
        let labels = labels.as_slice();
        let live = write_live(self.table.allocator(), links, labels)?;
        self.numbers.clear(labels.len())?;
        mark_each(live.as_slice(), &mut self.numbers);
        let count = self.numbers.count();
        let listed = Listed::new(live, &self.numbers, count)?;
        let offers = offers_of_listed(links, labels, &listed, &self.numbers, &mut self.table)?;
        Ok((offers, listed))
    }

    // Returns the same offers, found among the listed links alone. Those that are inside a component under the labels
    // are removed from the list.
    pub(crate) fn scan_listed<B: Allocator>(
        &mut self,
        links: &[Link],
        listed: &mut Listed<A>,
        labels: &Labels<B>,
    ) -> Result<Offers<A>, AllocError>
        requires few_links { length links.now ≤ MAX_SHARD_LINKS }
        requires ends { EndsUpTo (length labels.now) links.now }
        requires listed { AreListed links.now labels.now listed.old.names.items listed.old.links.items }
        ensures light { IfOk result (AreLightOffers links.now labels.now) }
        ensures listed { AreListed links.now labels.now listed.new.names.items listed.new.links.items }
    {
        let labels = labels.as_slice();
        self.numbers.clear(labels.len())?;
        mark_names(listed.names.as_slice(), labels, &mut self.numbers);
        let count = self.numbers.count();
        listed.renumber(labels, &self.numbers, count)?;
        offers_of_listed(links, labels, listed, &self.numbers, &mut self.table)
    }
}

impl<A: Allocator + Copy + Send + Sync> Scanner<A> {
    /// Returns the same offers as [`scan`](Scanner::scan), by threads, as the function [`scan_par`] does. It fails only
    /// if it is out of memory, and the scanner can still be used then.
    pub fn scan_par<'a, R: Threads + Sync, B: Allocator>(
        &mut self,
        rt: &R,
        links: &'a [Link],
        labels: &'a Labels<B>,
    ) -> Result<Offers<A>, AllocError>
        requires few_links { length links.now ≤ MAX_SHARD_LINKS }
        requires ends { EndsUpTo (length labels.now) links.now }
        ensures light { IfOk result (AreLightOffers links.now labels.now) }
    {
        let halvings = halvings_of(rt, links.len(), labels.as_slice().len());
        if halvings == 0 {
            return self.scan(links, labels);
        }
        let scanned = Scanned {
            links,
            labels: labels.as_slice(),
        };
        let whole = Part {
            from: 0,
            to: links.len(),
        };
        let table = best_between(rt, self.table.allocator(), scanned, whole, halvings)?;
        Ok(Offers::of_known(table.gather()?))
    }
}

// Takes the next link into the table by the labels of its endpoints. It leaves both labels if they differ, and
// otherwise none.
#[inline]
pub(crate) fn keep_next<A: Allocator + Copy>(links: &[Link], next: LiveLink, table: &mut Table<A>)
    requires few_links { length links.now ≤ MAX_SHARD_LINKS }
    requires next { CanBeTakenIn links.now (length table.old) next }
    ensures best { TakesIn links.now next.low next.high next.place table.old table.new }
    ensures size { length table.new ≡ length table.old }
{
    if next.low == next.high {
        return;
    }
    let best = next.best(links);
    table.keep(next.low as usize - 1, links, best);
    table.keep(next.high as usize - 1, links, best);
}

// Returns a key of 32 bits: the weight limited to between -2^30 and 2^30, plus the weight divided by 2^33, rounded
// down.
//
// A greater weight has no lesser key. If two keys are equal, the links themselves are compared, so a key is only a
// shortcut. The keys distinguish weights within 2^30 of zero, and beyond that weights that are 2^33 apart. With them an
// entry takes 8 bytes per label, and it would take 32 with a wide key.
#[inline]
pub(crate) fn short_key(weight: i64) -> i32
    ensures { result ≡ short_key weight }
{
    let near = weight.max(-(1 << 30)).min(1 << 30);
    (near + (weight >> 33)) as i32
}

// Stores the next link if it is less than the best one so far, or the first one. Usually it is neither, and nothing is
// stored.
#[inline]
pub(crate) fn keep_lesser(best: &mut Best, links: &[Link], next: Best)
    requires few_links { length links.now ≤ MAX_SHARD_LINKS }
    requires next { SaysBest links.now next (Some next.place) }
    ensures lesser { KeepsLesser links.now next best.old best.new }
{
    if best.key < next.key {
        return;
    }
    if next.key < best.key {
        *best = next;
        return;
    }
    let link = links[next.place as usize];
    match links.get(best.place as usize) {
        Some(earlier) if *earlier <= link => {}
        _ => *best = next,
    }
}
