//! Counts the offers in a round's answers, by one thread or by several.
//!
//! Several threads first count each offered link for the component that its offer names, by parts of the components.
//! That is enough if answers are light: the link's other component then has an offer of its own there, of a link that
//! isn't greater. Several threads, which write nothing, check whether this is so. If it isn't, one thread counts all
//! offers. So only the time depends on whether the least link was taken: what was taken has to be offered, and the
//! check finds the rest.
ghost use Rattle.std.specs.Prelude.{◌≡◌, ◌≢◌, [], ◌∷◌, ◌<◌, ◌≤◌, ◌↔◌, length, slice_get, Some, IsTrue};
ghost use Rattle.links.specs.declared.links.Link.{Link as TheLink};
ghost use Rattle.links.specs.Labels.{label_of};
ghost use Rattle.links.specs.Cut.{links_at};
ghost use Rattle.round_core.specs.BookValue.{named_links, all_named, CanCount, CanCountOffers};
ghost use Rattle.round_core.specs.OwnPicks.{IsCountedIn, AreCountedIn, CanCountInto, AreLeastNumbers, Counts};

use crate::end_labels::EndLabels;
use crate::own_picks::take_by_parts;
use crate::picks::{NO_PICK, key_number};
use links::{Answer, Cut, Link};
use rayon::prelude::*;
use std::alloc::Allocator;
use std::thread::Threads;

// Fewer offers than these are counted by one thread.
const FEW_OFFERS: usize = 1 << 14;

// No thread reads fewer offers of one answer than these.
const MANY_OFFERS: usize = 1 << 16;

pub(crate) fn offers_in<A: Allocator>(answers: &[Answer<A>]) -> usize {
    let mut offers = 0usize;
    for answer in answers {
        offers = offers.saturating_add(answer.offers.pairs().len());
    }
    offers
}

// Counts each link that the answers offer, for both of its components, by threads if there are many.
pub(crate) fn count_by_threads<R: Threads + Sync, A: Allocator + Copy + Send + Sync>(
    rt: &R,
    cut: &Cut<A>,
    labels: &EndLabels,
    answers: &[Answer<A>],
    numbers: &mut [u128],
)
    requires into { CanCountInto cut.now labels.now answers.now numbers.old }
    ensures { AreLeastNumbers labels.now (all_named cut.now answers.now) numbers.new }
{
    if offers_in(answers) < FEW_OFFERS {
        count_answers(cut, labels, answers, numbers);
        return;
    }
    take_by_parts(rt, numbers, cut, answers);
    if are_counted(rt, cut, labels, answers, numbers) {
        return;
    }
    numbers.fill(NO_PICK);
    count_answers(cut, labels, answers, numbers);
}

// Whether no link that the answers offer is below the number of one of its components. Threads share the answers.
fn are_counted<R: Threads + Sync, A: Allocator + Copy + Send + Sync>(
    rt: &R,
    cut: &Cut<A>,
    labels: &EndLabels,
    answers: &[Answer<A>],
    numbers: &[u128],
) -> bool
    requires can { CanCount cut.now labels.now answers.now }
    requires each_vertex { length numbers.now ≡ length labels.now }
    ensures { IsTrue result ↔ AreCountedIn labels.now numbers.now (all_named cut.now answers.now) }
{
    answers.par_iter().with_min_len(1).all(
        rt,
        |answer: &Answer<A>| -> bool
            requires { CanCount cut.now labels.now (answer.now ∷ []) × (length numbers.now ≡ length labels.now) }
            ensures { IsTrue result ↔ AreCountedIn labels.entry.now numbers.entry.now (named_links (links_at cut.entry.now answer.now.shard) answer.now.offers) }
        {
            let links = cut.shard(answer.shard).links;
            offers_are_counted(rt, labels, links, answer.offers.pairs(), numbers)
        },
    )
}

// The same for the offers about one shard, which threads share if there are very many.
fn offers_are_counted<R: Threads + Sync>(
    rt: &R,
    labels: &EndLabels,
    links: &[Link],
    pairs: &[(u32, u32)],
    numbers: &[u128],
) -> bool
    requires can { CanCountOffers links.now labels.now pairs.now }
    requires each_vertex { length numbers.now ≡ length labels.now }
    ensures { IsTrue result ↔ AreCountedIn labels.now numbers.now (named_links links.now pairs.now) }
{
    pairs.par_iter().with_min_len(MANY_OFFERS).all(
        rt,
        |pair: &(u32, u32)| -> bool
            requires { CanCountOffers links.now labels.now (pair.now ∷ []) × (length numbers.now ≡ length labels.now) }
            ensures { (l : TheLink) → slice_get links.entry.now pair.now.1 ≡ Some l
                → IsTrue result ↔ IsCountedIn labels.entry.now numbers.entry.now l }
        { is_counted(labels, links[pair.1 as usize], numbers) },
    )
}

#[inline]
fn is_counted(labels: &EndLabels, link: Link, numbers: &[u128]) -> bool
    requires each_vertex { length numbers.now ≡ length labels.now }
    requires ends { link.high ≤ length labels.now }
    requires leaving { label_of labels.now link.low ≢ label_of labels.now link.high }
    ensures { IsTrue result ↔ IsCountedIn labels.now numbers.now link }
{
    let number = key_number(link);
    let low = labels.of(link.low) as usize - 1;
    let high = labels.of(link.high) as usize - 1;
    numbers[low] <= number && numbers[high] <= number
}

// Counts each link that the answers offer, for both of its components, by one thread.
pub(crate) fn count_answers<A: Allocator>(
    cut: &Cut<A>,
    labels: &EndLabels,
    answers: &[Answer<A>],
    numbers: &mut [u128],
)
    requires into { CanCountInto cut.now labels.now answers.now numbers.old }
    ensures { AreLeastNumbers labels.now (all_named cut.now answers.now) numbers.new }
{
    for answer in answers {
        let links = cut.shard(answer.shard).links;
        count_all(labels, links, answer.offers.pairs(), numbers);
    }
}

fn count_all(labels: &EndLabels, links: &[Link], pairs: &[(u32, u32)], numbers: &mut [u128])
    requires can { CanCountOffers links.now labels.now pairs.now }
    requires each_vertex { length numbers.old ≡ length labels.now }
    ensures { Counts labels.now (named_links links.now pairs.now) numbers.old numbers.new }
{
    for pair in pairs {
        count(labels, links[pair.1 as usize], numbers);
    }
}

#[inline]
pub(crate) fn count(labels: &EndLabels, link: Link, numbers: &mut [u128])
    requires each_vertex { length numbers.old ≡ length labels.now }
    requires ends { link.high ≤ length labels.now }
    requires leaving { label_of labels.now link.low ≢ label_of labels.now link.high }
    ensures { Counts labels.now (link ∷ []) numbers.old numbers.new }
{
    let number = key_number(link);
    let low = labels.of(link.low) as usize - 1;
    let high = labels.of(link.high) as usize - 1;
    numbers[low] = numbers[low].min(number);
    numbers[high] = numbers[high].min(number);
}
