ghost use Rattle.std.specs.Prelude.{OnOk, ◌≡◌, ◌≤◌, ◌↔◌, [], length, map, All, IsTrue, IfOk};
ghost use Rattle.round_theory.specs.Labelling.{IsVertex};
ghost use Rattle.round_core.specs.Picks.{pick_of, AreNoPicks, HaveAllPicks};
ghost use Rattle.round_core.specs.PickNumbers.{IsKeyNumber, IsPickNumber, AreCleared, pick_in};

use links::Link;
use links::sorting::wide;
use std::alloc::{AllocError, Allocator, Global};
use std::marker::Model;
use std::mem;

// The number of no pick, greater than those of all keys.
pub(crate) const NO_PICK: u128 = u128::MAX;

// A unit of the weight and one of the lower endpoint, in the number of a key.
const PER_WEIGHT: u128 = 1 << 64;

const PER_LOW: u128 = 1 << 32;

// How far 0 is above the least weight.
const ABOVE_LEAST: i128 = 1 << 63;

/// The picks of a round: for each label, the least of all offered links with exactly one endpoint under it. An offered
/// link counts for both of its components.
///
/// They take 16 bytes per vertex: a pick is stored as the number of its key, so that a link is counted without a
/// branch.
#[derive(Drop)]
pub struct Picks<A: Allocator = Global> {
    numbers: Vec<u128, A>,
}

impl<A: Allocator> Model for Picks<A> {
    ghost use Rattle.std.specs.Prelude.{List, Option, All, map};
    ghost use Rattle.links.specs.declared.links.Link.{Link};
    ghost use Rattle.round_core.specs.PickNumbers.{pick_in, IsPickNumber};

    ghost Value = { List (Option Link) };

    ghost view = { λ s. map pick_in s.numbers.items };

    ghost invariant = { λ s. All IsPickNumber s.numbers.items };
}

impl<A: Allocator + Copy> Picks<A> {
    /// Picks of no labels. It allocates nothing.
    pub fn empty(alloc: A) -> Self
        ensures { result ≡ [] }
    {
        Picks {
            numbers: Vec::new(alloc),
        }
    }

    pub(crate) fn allocator(&self) -> A {
        *self.numbers.allocator()
    }

    /// Returns the picks, and leaves those of no labels. It allocates nothing.
    pub fn take(&mut self) -> Self
        ensures taken { result ≡ self.old }
        ensures left { self.new ≡ [] }
    {
        let none = Picks::empty(self.allocator());
        mem::replace(self, none)
    }

    /// No pick for each of `n` labels, 16 bytes each. It fails only if it is out of memory.
    pub fn none(alloc: A, n: u32) -> Result<Self, AllocError>
        ensures each_vertex { IfOk result (λ picks. length picks ≡ n) }
        ensures none { IfOk result AreNoPicks }
    {
        Picks::empty(alloc).none_over(n)
    }

    // No pick for each of `n` labels, in the memory of picks of which there are none. It writes only those that it
    // adds.
    pub(crate) fn none_over(self, n: u32) -> Result<Self, AllocError>
        requires { AreNoPicks self }
        ensures each_vertex { IfOk result (λ picks. length picks ≡ n) }
        ensures none { IfOk result AreNoPicks }
    {
        let mut numbers = self.into_numbers();
        fill_up(&mut numbers, n as usize)?;
        Ok(Picks { numbers })
    }
}

impl<A: Allocator> Picks<A> {
    // The numbers of the picks, if there are none.
    pub(crate) fn into_numbers(self) -> Vec<u128, A>
        requires { AreNoPicks self }
        ensures each_vertex { length result.items ≡ length self }
        ensures none { All (λ k. k ≡ NO_PICK) result.items }
    {
        let Picks { numbers } = self;
        numbers
    }

    pub(crate) fn of_numbers(numbers: Vec<u128, A>) -> Self
        requires { All IsPickNumber numbers.items }
        ensures { result ≡ map pick_in numbers.items }
    {
        Picks { numbers }
    }

    /// The pick of a label, or of any vertex; one that isn't a label has none.
    pub fn of(&self, label: u32) -> Option<Link>
        requires from_one { 1 ≤ label }
        requires to_n { label ≤ length self.now }
        ensures { result ≡ pick_of self.now label }
    {
        pick_of_number(self.numbers[label as usize - 1])
    }

    pub fn is_empty(&self) -> bool
        ensures { IsTrue result ↔ AreNoPicks self.now }
    {
        are_no_picks(self.numbers.as_slice())
    }

    // Whether two labels have the same pick, or both have none. It has no branch that depends on the picks.
    #[inline]
    pub(crate) fn are_same(&self, one: u32, other: u32) -> bool
        requires one { IsVertex (length self.now) one }
        requires other { IsVertex (length self.now) other }
        ensures { IsTrue result ↔ (pick_of self.now one ≡ pick_of self.now other) }
    {
        self.numbers[one as usize - 1] == self.numbers[other as usize - 1]
    }

    // Removes the picks of these labels. If no other label has one, none is left.
    pub(crate) fn clear_each(&mut self, labels: &[u32])
        requires { All (IsVertex (length self.old)) labels.now }
        ensures each_vertex { length self.new ≡ length self.old }
        ensures none { HaveAllPicks self.old labels.now → AreNoPicks self.new }
    {
        clear_each(self.numbers.as_mut_slice(), labels);
    }
}

fn fill_up<A: Allocator>(numbers: &mut Vec<u128, A>, count: usize) -> Result<(), AllocError>
    requires { All (λ k. k ≡ NO_PICK) numbers.old.items }
    ensures none { OnOk result (All (λ k. k ≡ NO_PICK) numbers.new.items) }
    ensures each { OnOk result (length numbers.new.items ≡ count) }
{
    numbers.resize(count, NO_PICK)
}

fn are_no_picks(numbers: &[u128]) -> bool
    ensures { IsTrue result ↔ All (λ k. k ≡ NO_PICK) numbers.now }
{
    numbers.iter().all(|number| *number == NO_PICK)
}

fn clear_each(numbers: &mut [u128], labels: &[u32])
    requires { All (IsVertex (length numbers.old)) labels.now }
    ensures { AreCleared labels.now (length labels.now) numbers.old numbers.new }
{
    for label in labels {
        numbers[*label as usize - 1] = NO_PICK;
    }
}

// The number of a link's key: how far its wide key is above the least number of 128 bits.
#[inline]
pub(crate) fn key_number(link: Link) -> u128
    ensures { IsKeyNumber link result }
{
    wide(&link).abs_diff(i128::MIN)
}

#[inline]
fn pick_of_number(number: u128) -> Option<Link>
    requires { IsPickNumber number }
    ensures { result ≡ pick_in number }
{
    if number == NO_PICK {
        return None;
    }
    Some(Link {
        weight: ((number / PER_WEIGHT) as i128 - ABOVE_LEAST) as i64,
        low: (number / PER_LOW % PER_LOW) as u32,
        high: (number % PER_LOW) as u32,
    })
}
