//! The live links of a shard, each written with the labels of its endpoints, or with the shard's own numbers of them.
//!
//! A link whose endpoints have one label leaves no component, and never will under labels that coarsen these. It is
//! removed. A link is also removed if the one before it in the list connects the same two labels and is no greater,
//! since that one is always preferred. This is frequent in files that have both directions of an edge, one after the
//! other.
//!
//! For every other link, 12 bytes are stored: a label of each endpoint, and the index. Its weight is read from the link
//! itself. The indices ascend, so the links are read in order.
ghost use Rattle.std.specs.Prelude.{◌≡◌, ◌<◌, ◌≤◌, length, take, All, Some, IfOk, IsTrue, IsFalse};
ghost use Rattle.limits.specs.declared.TheConstants.{MAX_SHARD_LINKS};
ghost use Rattle.links.specs.Link.{EndsUpTo};
ghost use Rattle.links.specs.Labels.{label_of, AreLabels};
ghost use Rattle.round_theory.specs.Labelling.{IsVertex};
ghost use Rattle.shard_scans.specs.Scanning.{SaysBest};
ghost use Rattle.shard_scans.specs.Live.{AreParallel, AreLiveLinks, StayLive, CanBeTakenIn, TakesInLive, relabelled, packed};

use crate::scanning::{Best, keep_next, short_key};
use crate::table::Table;
use links::Link;
use std::alloc::{AllocError, Allocator};

#[inline]
pub(crate) fn label_at(labels: &[u32], vertex: u32) -> u32
    requires { IsVertex (length labels.now) vertex }
    ensures { result ≡ label_of labels.now vertex }
{
    labels[vertex as usize - 1]
}

// The label of a link's lower endpoint, or that label's number, the same of its higher endpoint, and its index.
#[derive(Clone, Copy)]
pub(crate) struct LiveLink {
    pub(crate) low: u32,
    pub(crate) high: u32,
    pub(crate) place: u32,
}

impl LiveLink {
    // The same link under labels that coarsen those it was written with.
    #[inline]
    pub(crate) fn under(self, labels: &[u32]) -> Self
        requires low { IsVertex (length labels.now) self.low }
        requires high { IsVertex (length labels.now) self.high }
        ensures { result ≡ relabelled labels.now self }
    {
        LiveLink {
            low: label_at(labels, self.low),
            high: label_at(labels, self.high),
            place: self.place,
        }
    }

    // What a table stores of it: the short key of the weight of the link at its index, and the index.
    #[inline]
    pub(crate) fn best(self, links: &[Link]) -> Best
        requires in_list { self.place < length links.now }
        ensures place { result.place ≡ self.place }
        ensures says { SaysBest links.now result (Some result.place) }
    {
        Best {
            key: short_key(links[self.place as usize].weight),
            place: self.place,
        }
    }
}

// Takes live links into a table, by what is written of them.
pub(crate) fn keep_all<A: Allocator + Copy>(links: &[Link], live: &[LiveLink], table: &mut Table<A>)
    requires few_links { length links.now ≤ MAX_SHARD_LINKS }
    requires next { All (CanBeTakenIn links.now (length table.old)) live.now }
    ensures taken { TakesInLive links.now live.now table.old table.new }
{
    for i in 0..live.len() {
        keep_next(links, live[i], table);
    }
}

// Writes the new labels of all live links, and moves those whose endpoints have different labels to the front, in
// order. It returns how many these are.
pub(crate) fn pack(live: &mut [LiveLink], labels: &[u32]) -> usize
    requires ends { All (λ l. IsVertex (length labels.now) l.low × IsVertex (length labels.now) l.high) live.old }
    ensures front { result ≤ length live.old }
    ensures packed { take result live.new ≡ packed labels.now live.old }
{
    let mut kept = 0;
    for i in 0..live.len() {
        let next = live[i].under(labels);
        if next.low != next.high {
            live[kept] = next;
            kept += 1;
        }
    }
    kept
}

#[inline]
fn are_parallel(labels: &[u32], earlier: Link, link: Link) -> bool
    requires earlier { earlier.high ≤ length labels.now }
    requires link { link.high ≤ length labels.now }
    ensures { IsTrue result → AreParallel labels.now earlier link }
{
    let low = label_at(labels, earlier.low);
    let high = label_at(labels, earlier.high);
    let other_low = label_at(labels, link.low);
    let other_high = label_at(labels, link.high);
    if low == other_low {
        return high == other_high;
    }
    low == other_high && high == other_low
}

// Whether to list the link at `place`. It isn't listed if its endpoints have one label, or if the last listed link is
// parallel to it and no greater.
#[inline]
pub(crate) fn is_live(links: &[Link], labels: &[u32], live: &[LiveLink], place: usize) -> bool
    requires ends { EndsUpTo (length labels.now) links.now }
    requires in_list { place < length links.now }
    ensures { IsFalse result → StayLive links.now labels.now live.now place }
{
    let link = links[place];
    if label_at(labels, link.low) == label_at(labels, link.high) {
        return false;
    }
    if live.is_empty() {
        return true;
    }
    let last = live[live.len() - 1];
    match links.get(last.place as usize) {
        Some(earlier) if are_parallel(labels, *earlier, link) => link < *earlier,
        _ => true,
    }
}

// Lists the live links of a shard by labels. It allocates memory for all of its links.
pub(crate) fn write_live<A: Allocator + Copy>(
    alloc: A,
    links: &[Link],
    labels: &[u32],
) -> Result<Vec<LiveLink, A>, AllocError>
    requires few_links { length links.now ≤ MAX_SHARD_LINKS }
    requires ends { EndsUpTo (length labels.now) links.now }
    requires labels { AreLabels labels.now }
    ensures live { IfOk result (λ live. AreLiveLinks links.now labels.now live.items) }
    ensures own { IfOk result (λ live. All (λ e. relabelled labels.now e ≡ e) live.items) }
{
    let mut live = Vec::with_capacity(alloc, links.len())?;
    for place in 0..links.len() {
        if is_live(links, labels, live.as_slice(), place) {
            let link = links[place];
            live.push(LiveLink {
                low: label_at(labels, link.low),
                high: label_at(labels, link.high),
                place: place as u32,
            })?;
        }
    }
    Ok(live)
}
