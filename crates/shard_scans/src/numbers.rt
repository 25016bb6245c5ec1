//! A shard's own numbers for the labels that its live links have.
//!
//! A shard among many has links to few of the vertices. A table with an entry for each of their labels fits a
//! processor's cache, and one with an entry for each label of the graph doesn't. So the labels that live links have are
//! marked with a bit each, and numbered in their order. The number of a label is one more than the number of marked
//! labels below it. Those are counted one word of bits at a time.
ghost use Rattle.std.specs.Prelude.{◌≡◌, ℕ, ◌+◌, ◌-◌, ◌*◌, ◌/◌, ◌^◌, ◌<◌, ◌≤◌, ◌↔◌, ◌⊎◌, [], length, map, All, slice_index, replicate, set, count_ones, OnOk};
ghost use Rattle.links.specs.Labels.{AreLabels};
ghost use Rattle.round_theory.specs.Labelling.{IsVertex};
ghost use Rattle.shard_scans.specs.declared.live.LiveLink.{LiveLink};
ghost use Rattle.shard_scans.specs.Numbers.{no_marks, marks_of, IsMarked, marked_in, AreCounted, number_of, numbered, HasItsName, AreBothMarked, AreBothNamed, HaveMarks, new_name, new_number};

use crate::live::LiveLink;
use std::alloc::{AllocError, Allocator};
use std::marker::Model;

// A bit for each of 64 labels, which is set if the label is marked, and how many labels are marked in the words before.
#[derive(Clone, Copy)]
pub(crate) struct MarkWord {
    pub(crate) marks: u64,
    pub(crate) before: u32,
}

impl MarkWord {
    // How many of its labels are marked.
    #[inline]
    fn count(self) -> u32
        ensures ones { result ≡ count_ones self.marks }
        ensures few { result ≤ 64 }
        ensures bits { self.marks < 2 ^ 64 }
    {
        self.marks.count_ones()
    }
}

// Which labels are marked. Contracts see the words.
#[derive(Drop)]
pub(crate) struct Numbers<A: Allocator> {
    words: Vec<MarkWord, A>,
}

impl<A: Allocator> Model for Numbers<A> {
    ghost use Rattle.std.specs.Prelude.{List};
    ghost use Rattle.shard_scans.specs.declared.numbers.MarkWord.{MarkWord};

    ghost Value = { List MarkWord };

    ghost view = { λ n. n.words.items };
}

impl<A: Allocator + Copy> Numbers<A> {
    // No words. It allocates nothing.
    pub(crate) fn new(alloc: A) -> Self
        ensures { result ≡ [] }
    {
        Numbers {
            words: Vec::new(alloc),
        }
    }

    // Makes space for this many labels, with none of them marked.
    pub(crate) fn clear(&mut self, labels: usize) -> Result<(), AllocError>
        requires few { labels ≤ 2 ^ 26 }
        ensures { OnOk result (self.new ≡ replicate (labels / 64 + 1) no_marks) }
    {
        self.words.clear();
        let none = MarkWord {
            marks: 0,
            before: 0,
        };
        self.words.resize(labels / 64 + 1, none)
    }

    // Marks a label, which may be marked already.
    #[inline]
    pub(crate) fn mark(&mut self, label: u32)
        requires from_one { 1 ≤ label }
        requires in_words { (label - 1) / 64 < length self.old }
        ensures words { length self.new ≡ length self.old }
        ensures marked { (c : ℕ) → IsMarked (marks_of self.new) c ↔ ((c ≡ label) ⊎ IsMarked (marks_of self.old) c) }
    {
        let at = label as usize - 1;
        self.words[at / 64].marks |= 1 << (at % 64);
    }

    // Counts the marks, so that labels have numbers, and returns how many are marked.
    pub(crate) fn count(&mut self) -> usize
        requires few { length self.old ≤ 2 ^ 21 }
        ensures words { length self.new ≡ length self.old }
        ensures marks { marks_of self.new ≡ marks_of self.old }
        ensures counted { AreCounted self.new }
        ensures total { result ≡ marked_in (marks_of self.new) (length self.new) }
    {
        let mut total = 0;
        for word in self.words.iter_mut() {
            word.before = total;
            total += word.count();
        }
        total as usize
    }

    #[inline]
    pub(crate) fn number(&self, label: u32) -> u32
        requires from_one { 1 ≤ label }
        requires in_words { (label - 1) / 64 < length self.now }
        requires counted { AreCounted self.now }
        ensures { result ≡ number_of (marks_of self.now) label }
    {
        let at = label as usize - 1;
        let word = self.words[at / 64];
        word.before + (word.marks % (1 << (at % 64))).count_ones() + 1
    }

    // Returns the number of a marked label, and stores the label as the name of that number. Usually the name is
    // already stored and is only read, since a write anywhere in the names delays the reads after it.
    #[inline]
    fn name(&self, label: u32, names: &mut [u32]) -> u32
        requires counted { AreCounted self.now }
        requires marked { IsMarked (marks_of self.now) label }
        requires names { length names.old ≡ marked_in (marks_of self.now) (length self.now) }
        ensures number { result ≡ number_of (marks_of self.now) label }
        ensures named { names.new ≡ set names.old (number_of (marks_of self.now) label - 1) label }
    {
        let number = self.number(label);
        let place = number as usize - 1;
        if names[place] != label {
            names[place] = label;
        }
        number
    }
}

pub(crate) fn mark_each<A: Allocator + Copy>(live: &[LiveLink], numbers: &mut Numbers<A>)
    requires ends { All (λ e. IsVertex (64 * length numbers.old) e.low × IsVertex (64 * length numbers.old) e.high) live.now }
    ensures words { length numbers.new ≡ length numbers.old }
    ensures marked { All (AreBothMarked (marks_of numbers.new)) live.now }
{
    for link in live {
        numbers.mark(link.low);
        numbers.mark(link.high);
    }
}

// Replaces the labels of links by their numbers, and stores the names of these numbers.
pub(crate) fn number_each<A: Allocator + Copy>(
    numbers: &Numbers<A>,
    names: &mut [u32],
    live: &mut [LiveLink],
)
    requires counted { AreCounted numbers.now }
    requires marked { All (AreBothMarked (marks_of numbers.now)) live.old }
    requires names { length names.old ≡ marked_in (marks_of numbers.now) (length numbers.now) }
    ensures numbered { live.new ≡ map (numbered (marks_of numbers.now)) live.old }
    ensures named { All (AreBothNamed (marks_of numbers.now) names.new) live.old }
{
    for i in 0..live.len() {
        let link = live[i];
        let low = numbers.name(link.low, names);
        let high = numbers.name(link.high, names);
        live[i] = LiveLink {
            low,
            high,
            place: link.place,
        };
    }
}

// The label of a name as a vertex, or 1 if there is no such vertex.
#[inline]
fn new_name(labels: &[u32], name: u32) -> u32
    ensures { result ≡ new_name labels.now name }
{
    match labels.get((name as usize).saturating_sub(1)) {
        Some(label) => *label,
        None => 1,
    }
}

pub(crate) fn mark_names<A: Allocator + Copy>(
    names: &[u32],
    labels: &[u32],
    numbers: &mut Numbers<A>,
)
    requires labels { AreLabels labels.now }
    requires words { length numbers.old ≡ length labels.now / 64 + 1 }
    ensures words { length numbers.new ≡ length numbers.old }
    ensures marked { HaveMarks labels.now (marks_of numbers.new) names.now }
{
    for i in 0..names.len() {
        numbers.mark(new_name(labels, names[i]));
    }
}

// Writes the number of each name's new label, and stores the names of these numbers.
pub(crate) fn number_names<A: Allocator + Copy>(
    old: &[u32],
    labels: &[u32],
    numbers: &Numbers<A>,
    names: &mut [u32],
    changed: &mut [u32],
)
    requires counted { AreCounted numbers.now }
    requires marked { HaveMarks labels.now (marks_of numbers.now) old.now }
    requires names { length names.old ≡ marked_in (marks_of numbers.now) (length numbers.now) }
    requires room { length changed.old ≡ length old.now }
    ensures numbered { (i : ℕ) → i < length old.now → slice_index changed.new i ≡ new_number (marks_of numbers.now) labels.now (slice_index old.now i) }
    ensures named { (i : ℕ) → i < length old.now → HasItsName (marks_of numbers.now) names.new (new_name labels.now (slice_index old.now i)) }
{
    for i in 0..old.len() {
        changed[i] = numbers.name(new_name(labels, old[i]), names);
    }
}
