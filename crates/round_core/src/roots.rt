ghost use Rattle.std.specs.Prelude.{◌≡◌, ℕ, List, Option, ◌+◌, ◌<◌, ◌≤◌, ◌==◌, ◌↔◌, length, filter, slice_index, All, AllPairs, Contains, None, EachIndex, IsTrue, IfOk, OnOk, OnErr, true, false};
ghost use Rattle.std.specs.List.{sum_by};
ghost use Rattle.links.specs.declared.links.Link.{Link as TheLink};
ghost use Rattle.links.specs.Labels.{label_of, AreLabels};
ghost use Rattle.round_theory.specs.Labelling.{IsVertex, IsRelabelling};
ghost use Rattle.round_theory.specs.Offers.{Leaves};
ghost use Rattle.round_core.specs.Picks.{pick_of, Picked, AreNoPicks, HaveAllPicks, ArePicksOfHearings};
ghost use Rattle.round_core.specs.Roots.{IsRoot, AreRoots, HasEndLabels, IsLed, IsLedBy, Gives, TakesPicked, ArePointers, AreParents, StayParents, IsSettled, AreSettled, Descend, IsLeastUnder, CanStep, Relabels, jumped};

use crate::picks::Picks;
use limits::MAX_VERTICES;
use links::{Labels, Link};
use std::alloc::{AllocError, Allocator, Global};
use std::marker::Model;

// What is written where no link was taken.
const BLANK: Link = Link {
    weight: 0,
    low: 1,
    high: 2,
};

/// The vertices that label themselves, in ascending order. Each names a component, and no other vertex has a pick.
///
/// They take 4 bytes per vertex, and from the first step on 8 more: a parent for each label and the least root of each
/// component. These aren't reset between rounds.
#[derive(Drop)]
pub(crate) struct Roots<A: Allocator = Global> {
    roots: Vec<u32, A>,
    parents: Vec<u32, A>,
    least: Vec<u32, A>,
}

impl<A: Allocator> Model for Roots<A> {
    ghost use Rattle.std.specs.Prelude.{ℕ, List};

    ghost Value = { List ℕ };

    ghost view = { λ s. s.roots.items };
}

impl<A: Allocator + Copy> Roots<A> {
    pub(crate) fn of_labels(alloc: A, labels: &Labels<A>) -> Result<Self, AllocError>
        ensures { IfOk result (AreRoots labels.now) }
    {
        let mut roots = vertices_to(alloc, labels.n())?;
        keep_own(&mut roots, labels.as_slice());
        Ok(Roots {
            roots,
            parents: Vec::new(alloc),
            least: Vec::new(alloc),
        })
    }

    // Merges the components that the picks connect. The picked links are appended to those taken before, each once, in
    // the order of the least roots that pick them. The new labels overwrite the old ones, and the roots remain those of
    // the old labels. With k roots of n vertices, it takes O(n + k log k) time.
    pub(crate) fn merge(
        &mut self,
        labels: &mut Labels<A>,
        picks: &Picks<A>,
        taken: &mut Vec<Link, A>,
    ) -> Result<(), AllocError>
        requires roots { AreRoots labels.old self.old }
        requires picks { ArePicksOfHearings labels.old picks.now }
        ensures once { OnOk result (TakesPicked picks.now (length self.old) taken.old.items taken.new.items) }
        ensures relabelled { OnOk result (IsRelabelling (length labels.old) labels.old (Picked picks.now) labels.new) }
        ensures not_taken { OnErr result (taken.new.items ≡ taken.old.items) }
        ensures labels { OnErr result (labels.new ≡ labels.old) }
        ensures same { self.new ≡ self.old }
    {
        let picking = Picking {
            labels: labels.as_slice(),
            roots: &self.roots,
            picks,
        };
        take_and_name(picking, taken, &mut self.parents, &mut self.least)?;
        labels.rename(&self.parents);
        Ok(())
    }
}

impl<A: Allocator> Roots<A> {
    // Whether no root has a pick, and so no vertex has.
    pub(crate) fn have_no_picks(&self, picks: &Picks<A>) -> bool
        requires { All (IsVertex (length picks.now)) self.now }
        ensures { IsTrue result ↔ All (λ c. pick_of picks.now c ≡ None) self.now }
    {
        self.roots.iter().all(
            |root: &u32| -> bool
                requires { IsVertex (length picks.now) root.now }
                ensures { IsTrue result ↔ (pick_of picks.entry.now root.entry.now ≡ None) }
            { picks.of(*root).is_none() },
        )
    }

    // Removes the picks of the roots. If no other vertex has one, none is left.
    pub(crate) fn clear(&self, picks: &mut Picks<A>)
        requires { All (IsVertex (length picks.old)) self.now }
        ensures each_vertex { length picks.new ≡ length picks.old }
        ensures none { HaveAllPicks picks.old self.now → AreNoPicks picks.new }
    {
        picks.clear_each(&self.roots);
    }

    pub(crate) fn keep(&mut self, labels: &[u32])
        requires { All (IsVertex (length labels.now)) self.old }
        ensures { self.new ≡ filter (λ c. label_of labels.now c == c) self.old }
    {
        keep_own(&mut self.roots, labels);
    }
}

// Retains the vertices that label themselves, in place. It has no branch that depends on the labels.
fn keep_own<A: Allocator>(vertices: &mut Vec<u32, A>, labels: &[u32])
    requires { All (IsVertex (length labels.now)) vertices.old.items }
    ensures { vertices.new.items ≡ filter (λ c. label_of labels.now c == c) vertices.old.items }
{
    let mut kept = 0;
    for place in 0..vertices.len() {
        let vertex = vertices[place];
        vertices[kept] = vertex;
        kept += (labels[vertex as usize - 1] == vertex) as usize;
    }
    vertices.truncate(kept);
}

fn vertices_to<A: Allocator + Copy>(alloc: A, n: u32) -> Result<Vec<u32, A>, AllocError>
    requires { n ≤ MAX_VERTICES }
    ensures len { IfOk result (λ vertices. length vertices.items ≡ n) }
    ensures each { IfOk result (λ vertices. EachIndex vertices.items (λ k. slice_index vertices.items k ≡ k + 1)) }
{
    let mut vertices = Vec::with_capacity(alloc, n as usize)?;
    for v in 1..n + 1 {
        vertices.push(v)?;
    }
    Ok(vertices)
}

// Makes space for a number of each of the labels 1 to `n`, unless there is enough.
fn make_room<A: Allocator + Copy>(
    alloc: A,
    numbers: &mut Vec<u32, A>,
    n: usize,
) -> Result<(), AllocError>
    requires { n ≤ MAX_VERTICES }
    ensures { OnOk result (n < length numbers.new.items) }
{
    if numbers.len() <= n {
        *numbers = vec![in alloc; 0; n + 1]?;
    }
    Ok(())
}

// What a step depends on: the labels, the roots of their components, and what these pick.
#[derive(Clone, Copy)]
struct Picking<'a, A: Allocator> {
    labels: &'a [u32],
    roots: &'a [u32],
    picks: &'a Picks<A>,
}

// Appends the picks of the roots to what was taken before. Writes to `parents` the name of the component that each root
// comes to: the least vertex to which the components and the picks connect it.
fn take_and_name<A: Allocator + Copy>(
    picking: Picking<A>,
    taken: &mut Vec<Link, A>,
    parents: &mut Vec<u32, A>,
    least: &mut Vec<u32, A>,
) -> Result<(), AllocError>
    requires { CanStep picking.labels.now picking.roots.now picking.picks.now }
    ensures once { OnOk result (TakesPicked picking.entry.picks.now (length picking.entry.roots.now) taken.old.items taken.new.items) }
    ensures same { OnErr result (taken.new.items ≡ taken.old.items) }
    ensures names { OnOk result (Relabels picking.entry.labels.now picking.entry.picks.now parents.new.items) }
{
    let alloc = *taken.allocator();
    let n = picking.labels.len();
    make_room(alloc, parents, n)?;
    make_room(alloc, least, n)?;
    let names = parents.as_mut_slice();
    lead_each(picking, names, taken)?;
    join_led(picking, names);
    name_roots(picking.roots, names, least);
    Ok(())
}

// Gives each root the parent to which its pick leads. Appends the picked links to those taken before, in the order of
// the least roots that pick them. It has no branch that depends on which roots take their picks. Each pick is written
// after those that are taken, and only these are counted.
fn lead_each<A: Allocator>(
    picking: Picking<A>,
    parents: &mut [u32],
    taken: &mut Vec<Link, A>,
) -> Result<(), AllocError>
    requires can { CanStep picking.labels.now picking.roots.now picking.picks.now }
    requires within { All (λ c. c < length parents.old) picking.roots.now }
    ensures led { OnOk result (All (IsLedBy picking.entry.labels.now picking.entry.picks.now parents.new) picking.entry.roots.now) }
    ensures once { OnOk result (TakesPicked picking.entry.picks.now (length picking.entry.roots.now) taken.old.items taken.new.items) }
    ensures same { OnErr result (taken.new.items ≡ taken.old.items) }
{
    let mut count = taken.len();
    taken.resize(count + picking.roots.len(), BLANK)?;
    for root in picking.roots {
        let lead = lead_of(picking.labels, picking.picks, *root);
        parents[*root as usize] = lead.parent;
        taken[count] = lead.link;
        count += lead.takes as usize;
    }
    taken.truncate(count);
    Ok(())
}

// Gives all roots that the picks connect one parent, which is one of them, if each has the parent to which its pick
// leads. It terminates because picks become less along parents, so each jump to another parent leads to a lesser pick.
fn join_led<A: Allocator>(picking: Picking<A>, parents: &mut [u32])
    requires can { CanStep picking.labels.now picking.roots.now picking.picks.now }
    requires within { All (λ c. c < length parents.old) picking.roots.now }
    requires led { All (IsLedBy picking.labels.now picking.picks.now parents.old) picking.roots.now }
    ensures pointers { ArePointers picking.entry.roots.now parents.new }
    ensures parents { AreParents picking.entry.labels.now picking.entry.roots.now picking.entry.picks.now parents.new }
    ensures settled { AreSettled picking.entry.roots.now parents.new }
{
    'jumps: while jump(picking.roots, parents) {}
}

// Lets each root jump three times in a row, while its chain is in the cache. Returns whether the last jump of a root
// led to another parent. It has no branch that depends on what it looks up.
fn jump(roots: &[u32], parents: &mut [u32]) -> bool
    requires { ArePointers roots.now parents.old }
    ensures pointers { ArePointers roots.now parents.new }
    ensures parents { StayParents roots.now parents.old parents.new }
    ensures descend { (rank : ℕ → ℕ) → Descend roots.now rank parents.old → Descend roots.now rank parents.new }
    ensures lower { (result ≡ true) → (rank : ℕ → ℕ) → Descend roots.now rank parents.old → sum_by rank parents.new < sum_by rank parents.old }
    ensures settled { (result ≡ false) → AreSettled roots.now parents.new }
{
    let mut moved = false;
    for root in roots {
        jump_once(parents, *root);
        jump_once(parents, *root);
        moved |= jump_once(parents, *root);
    }
    moved
}

// Replaces a root's parent by the parent's parent, and returns whether that is another.
#[inline]
fn jump_once(parents: &mut [u32], root: u32) -> bool
    requires { (root < length parents.old) × (slice_index parents.old root < length parents.old) }
    ensures jumped { parents.new ≡ jumped parents.old root }
    ensures settled { (result ≡ false) ↔ IsSettled parents.old root }
{
    let parent = parents[root as usize];
    let next = parents[parent as usize];
    parents[root as usize] = next;
    next != parent
}

// Replaces each root's parent by the least root with that parent.
fn name_roots(roots: &[u32], parents: &mut [u32], least: &mut [u32])
    requires ascending { AllPairs (λ b c. b < c) roots.now }
    requires pointers { ArePointers roots.now parents.old }
    requires room { All (λ c. c < length least.old) roots.now }
    ensures { (c : ℕ) → Contains roots.now c → IsLeastUnder roots.now parents.old c (slice_index parents.new c) }
{
    find_least(roots, parents, least);
    for root in roots {
        let name = &mut parents[*root as usize];
        *name = least[*name as usize];
    }
}

// Finds the least root under each parent. The roots come in descending order, so that the last one is the least.
fn find_least(roots: &[u32], parents: &[u32], least: &mut [u32])
    requires ascending { AllPairs (λ b c. b < c) roots.now }
    requires pointers { ArePointers roots.now parents.now }
    requires room { All (λ c. c < length least.old) roots.now }
    ensures { (c : ℕ) → Contains roots.now c
        → IsLeastUnder roots.now parents.now c (slice_index least.new (slice_index parents.now c)) }
{
    for done in 0..roots.len() {
        let root = roots[roots.len() - 1 - done];
        least[parents[root as usize] as usize] = root;
    }
}

// Where a root's pick leads it, what it picks, and whether it takes that link.
#[derive(Clone, Copy)]
struct Lead {
    parent: u32,
    link: Link,
    takes: bool,
}

// The lead of a root. If two roots pick the same link, both go to the lesser, which takes it.
#[inline]
fn lead_of<A: Allocator>(labels: &[u32], picks: &Picks<A>, root: u32) -> Lead
    requires labels { AreLabels labels.now }
    requires picks { ArePicksOfHearings labels.now picks.now }
    requires root { IsRoot labels.now root }
    ensures led { IsLed labels.now picks.now root result.parent }
    ensures root { IsRoot labels.now result.parent }
    ensures gives { Gives picks.now root result.takes result.link }
{
    let Some(link) = picks.of(root) else {
        return Lead {
            parent: root,
            link: BLANK,
            takes: false,
        };
    };
    let other = other_label(labels, link, root);
    let paired = picks.are_same(root, other);
    let lesser = root < other;
    let parent = if paired & lesser { root } else { other };
    Lead {
        parent,
        link,
        takes: !paired | lesser,
    }
}

// The label of the link's other endpoint: the sum of both endpoints' labels, less the root. So no branch waits for a
// label.
#[inline]
fn other_label(labels: &[u32], link: Link, root: u32) -> u32
    requires labels { AreLabels labels.now }
    requires ends { link.high ≤ length labels.now }
    requires leaves { Leaves labels.now link root }
    ensures other { HasEndLabels labels.now link root result }
    ensures root { IsRoot labels.now result }
{
    labels[link.low as usize - 1] + labels[link.high as usize - 1] - root
}
