ghost use Rattle.std.specs.Prelude.{◌≡◌, ℕ, ◌+◌, ◌<◌, ◌≤◌, ◌^◌, ◌↔◌, length, map, slice_index, All, IsSome, IfSome, IfOk, IsTrue};
ghost use Rattle.std.specs.Int.{w32, to_be_bytes};
ghost use Rattle.std.specs.List.{flat_map};
ghost use Rattle.links.specs.Labels.{label_of, IsLabelled, AreLabels, AreApart, Coarsens};
ghost use Rattle.links.specs.Labels.{renamed};

use limits::MAX_VERTICES;
use std::alloc::{AllocError, Allocator, Global};
use std::marker::Model;

/// Labels of the vertices 1 to n of a graph. Vertices with the same label are in the same component.
///
/// The label of vertex v is between 1 and v, and a label is its own label. So each component is named after one of its
/// vertices. There are at most `MAX_VERTICES` vertices. Labels take 4 bytes per vertex, and 4 more after
/// [`Labels::spell`].
#[derive(Drop)]
pub struct Labels<A: Allocator = Global> {
    labels: Vec<u32, A>,
    cells: Option<Vec<[u8; 4], A>>,
}

impl<A: Allocator> Model for Labels<A> {
    ghost use Rattle.std.specs.Prelude.{◌≡◌, ℕ, List, map, IfSome};
    ghost use Rattle.std.specs.Int.{w32, to_be_bytes};
    ghost use Rattle.links.specs.Labels.{AreLabels};

    ghost Value = { List ℕ };

    ghost view = { λ s. s.labels.items };

    ghost invariant = { λ s. AreLabels s.labels.items
        × IfSome s.cells (λ cells. cells.items ≡ map (to_be_bytes w32) s.labels.items) };
}

impl<A: Allocator + Copy> Labels<A> {
    /// Labels each of the vertices 1 to `n` with itself. The only error is out of memory.
    pub fn apart(alloc: A, n: u32) -> Result<Self, AllocError>
        requires { n ≤ MAX_VERTICES }
        ensures apart { IfOk result (AreApart n) }
    {
        let mut labels = Vec::with_capacity(alloc, n as usize)?;
        for v in 1..n + 1 {
            labels.push(v)?;
        }
        Ok(Labels::of_known(labels))
    }

    /// Stores the bytes of the labels, for [`Labels::spelled`], so that everyone who sends the labels can use the same
    /// bytes. If they are already stored, it does nothing. The only error is out of memory, and then no bytes are
    /// stored.
    ///
    /// Makes one pass, and allocates 4 bytes per vertex.
    pub fn spell(&mut self) -> Result<(), AllocError>
        ensures { self.new ≡ self.old }
    {
        if self.cells.is_none() {
            let alloc = *self.labels.allocator();
            let cells = cells_of(alloc, self.labels.as_slice())?;
            self.cells = Some(cells);
        }
        Ok(())
    }
}

impl<A: Allocator> Labels<A> {
    /// Makes labels of a list, in the order of the vertices. Returns `None` and drops the list if the numbers aren't
    /// valid labels or there are more than `MAX_VERTICES`. Looks at each label and at its label once, allocates
    /// nothing, and keeps the list's memory.
    pub fn of_list(labels: Vec<u32, A>) -> Option<Self>
        ensures exactly_labels { IsSome result ↔ AreLabels labels.items }
        ensures same_labels { IfSome result (λ made. made ≡ labels.items) }
    {
        if are_labels(labels.as_slice()) {
            Some(Labels::of_known(labels))
        } else {
            None
        }
    }

    /// Makes labels of a list that the caller knows to be valid labels, in the order of the vertices. Looks at none of
    /// them, allocates nothing, and keeps the list's memory.
    pub fn of_known(labels: Vec<u32, A>) -> Self
        requires { AreLabels labels.items }
        ensures { result ≡ labels.items }
    {
        Labels {
            labels,
            cells: None,
        }
    }

    /// Replaces each label `c` by its name, `names[c]`. The new numbers must be valid labels too. If the bytes of the
    /// labels are stored, they are overwritten with those of the new labels.
    ///
    /// Makes one pass, or two if the bytes are stored. Allocates nothing.
    pub fn rename(&mut self, names: &[u32])
        requires within { All (λ c. c < length names.now) self.old }
        requires labels { AreLabels (renamed names.now self.old) }
        ensures { self.new ≡ renamed names.now self.old }
    {
        rename_each(self.labels.as_mut_slice(), names);
        if let Some(cells) = &mut self.cells {
            spell_each(cells.as_mut_slice(), self.labels.as_slice());
        }
    }

    /// The label of vertex `v`.
    pub fn of(&self, v: u32) -> u32
        requires from_one { 1 ≤ v }
        requires to_n { v ≤ length self.now }
        ensures label { result ≡ label_of self.now v }
        ensures label_from_one { 1 ≤ result }
        ensures label_to_vertex { result ≤ v }
    {
        self.labels[v as usize - 1]
    }

    /// The number of vertices.
    pub fn n(&self) -> u32
        ensures vertices { result ≡ length self.now }
        ensures are_labels { AreLabels self.now }
    {
        self.labels.len() as u32
    }

    /// The labels of the vertices 1 to n in order: the label of vertex v is at index v - 1.
    pub fn as_slice(&self) -> &[u32]
        ensures labels { result.now ≡ self.now }
        ensures are_labels { AreLabels self.now }
    {
        self.labels.as_slice()
    }

    /// The bytes of the labels in order, four per label with the most significant byte first, if [`Labels::spell`]
    /// stored them.
    pub fn spelled(&self) -> Option<&[u8]>
        ensures { IfSome result (λ bytes. bytes.now ≡ flat_map (to_be_bytes w32) self.now) }
    {
        match &self.cells {
            Some(cells) => Some(cells.as_slice().as_flattened()),
            None => None,
        }
    }

    /// Returns whether these labels coarsen `finer`: both have the same number of vertices, and vertices with the same
    /// label in `finer` have the same label here. So each component of `finer` lies within one component of these
    /// labels. Labels coarsen themselves.
    ///
    /// Makes one pass over both and allocates nothing. The time is O(n) for n vertices, and much less per vertex if
    /// both have the same labels.
    pub fn coarsens<B: Allocator>(&self, finer: &Labels<B>) -> bool
        ensures { IsTrue result ↔ Coarsens self.now finer.now }
    {
        let labels = self.labels.as_slice();
        let finer = finer.as_slice();
        labels.len() == finer.len() && are_coarser(labels, finer)
    }
}

fn cells_of<A: Allocator>(alloc: A, labels: &[u32]) -> Result<Vec<[u8; 4], A>, AllocError>
    ensures { IfOk result (λ cells. cells.items ≡ map (to_be_bytes w32) labels.now) }
{
    let mut cells = Vec::with_capacity(alloc, labels.len())?;
    for label in labels {
        cells.push_reserved(label.to_be_bytes());
    }
    Ok(cells)
}

fn rename_each(labels: &mut [u32], names: &[u32])
    requires { All (λ c. c < length names.now) labels.old }
    ensures { labels.new ≡ renamed names.now labels.old }
{
    for i in 0..labels.len() {
        labels[i] = names[labels[i] as usize];
    }
}

fn spell_each(cells: &mut [[u8; 4]], labels: &[u32])
    requires { length cells.old ≡ length labels.now }
    ensures { cells.new ≡ map (to_be_bytes w32) labels.now }
{
    for i in 0..labels.len() {
        cells[i] = labels[i].to_be_bytes();
    }
}

fn are_labels(labels: &[u32]) -> bool
    ensures { IsTrue result ↔ AreLabels labels.now }
{
    if labels.len() > MAX_VERTICES as usize {
        return false;
    }
    for v in 1..labels.len() + 1 {
        if !is_labelled(labels, v) {
            return false;
        }
    }
    true
}

// Returns whether the label of vertex v is between 1 and v, and is its own label. One comparison checks both bounds,
// since subtracting 1 from 0 wraps to an index past all others.
#[inline]
fn is_labelled(labels: &[u32], v: usize) -> bool
    requires from_one { 1 ≤ v }
    requires to_n { v ≤ length labels.now }
    requires few_vertices { v ≤ MAX_VERTICES }
    ensures { IsTrue result ↔ IsLabelled labels.now v }
{
    let label = labels[v - 1];
    let place = label.wrapping_sub(1) as usize;
    place < v && labels[place] == label
}

// Returns whether each vertex has the same label as the vertex that is its label in `finer`. Labels label themselves,
// so this holds for every vertex whose two labels are equal.
fn are_coarser(labels: &[u32], finer: &[u32]) -> bool
    requires vertices { length labels.now ≡ length finer.now }
    requires labels { AreLabels labels.now }
    requires finer { AreLabels finer.now }
    ensures { IsTrue result ↔ Coarsens labels.now finer.now }
{
    for v in 1..labels.len() + 1 {
        if labels[v - 1] != labels[finer[v - 1] as usize - 1] {
            return false;
        }
    }
    true
}
