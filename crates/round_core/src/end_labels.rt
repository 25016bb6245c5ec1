ghost use Rattle.std.specs.Prelude.{◌≡◌, ◌≤◌, ◌↔◌, length, IsTrue};
ghost use Rattle.links.specs.Labels.{label_of, AreLabels, AreApart};
ghost use Rattle.round_theory.specs.Labelling.{IsVertex};

use std::marker::Model;

// The labels of a round, for looking up those of endpoints. In the first round, each vertex labels itself, and the most
// links are offered. Then the label is the vertex, and no look-up waits for memory.
#[derive(Drop)]
pub(crate) struct EndLabels<'a> {
    labels: &'a [u32],
    apart: bool,
}

impl<'a> Model for EndLabels<'a> {
    ghost use Rattle.std.specs.Prelude.{ℕ, List};
    ghost use Rattle.round_core.specs.EndLabels.{AreEndLabels};

    ghost Value = { List ℕ };

    ghost view = { λ s. s.labels.now };

    ghost invariant = { λ s. AreEndLabels s.labels.now s.apart };
}

impl<'a> EndLabels<'a> {
    // The labels of a list. It reads them up to the first vertex that doesn't label itself.
    pub(crate) fn over(labels: &'a [u32]) -> Self
        requires { AreLabels labels.now }
        ensures { result ≡ labels.now }
    {
        EndLabels {
            labels,
            apart: are_apart(labels),
        }
    }

    #[inline]
    pub(crate) fn of(&self, vertex: u32) -> u32
        requires from_one { 1 ≤ vertex }
        requires to_n { vertex ≤ length self.now }
        ensures label { result ≡ label_of self.now vertex }
        ensures vertex { IsVertex (length self.now) result }
    {
        if self.apart {
            return vertex;
        }
        self.labels[vertex as usize - 1]
    }

    pub(crate) fn len(&self) -> usize
        ensures each { result ≡ length self.now }
        ensures labelled { AreLabels self.now }
    {
        self.labels.len()
    }
}

// Whether each vertex labels itself.
fn are_apart(labels: &[u32]) -> bool
    requires { AreLabels labels.now }
    ensures { IsTrue result ↔ AreApart (length labels.now) labels.now }
{
    for i in 0..labels.len() {
        if labels[i] as usize != i + 1 {
            return false;
        }
    }
    true
}
