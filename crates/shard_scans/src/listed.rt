//! The live links of a shard. Their labels are replaced by numbers of the shard's own.
ghost use Rattle.std.specs.Prelude.{◌≡◌, length, All, IfOk, OnOk, OnErr};
ghost use Rattle.shard_scans.specs.Numbers.{marks_of, marked_in, AreCounted, AreBothMarked, AreByNumbers, HaveLabels, HaveNames, HaveMarks, Relists, shown};

use crate::live::{LiveLink, pack};
use crate::numbers::{Numbers, number_each, number_names};
use std::alloc::{AllocError, Allocator};

// Live links with the numbers of their labels, and the label of each number, its name.
#[derive(Drop)]
pub(crate) struct Listed<A: Allocator> {
    pub(crate) names: Vec<u32, A>,
    pub(crate) links: Vec<LiveLink, A>,
}

impl<A: Allocator + Copy> Listed<A> {
    // Replaces the labels of links by their numbers. `count` labels have numbers.
    pub(crate) fn new(
        mut links: Vec<LiveLink, A>,
        numbers: &Numbers<A>,
        count: usize,
    ) -> Result<Self, AllocError>
        requires counted { AreCounted numbers.now }
        requires marked { All (AreBothMarked (marks_of numbers.now)) links.items }
        requires count { count ≡ marked_in (marks_of numbers.now) (length numbers.now) }
        ensures names { IfOk result (λ listed. length listed.names.items ≡ count) }
        ensures numbered { IfOk result (λ listed. AreByNumbers (marks_of numbers.now) listed.names.items links.items listed.links.items) }
    {
        let mut names = Vec::new(*links.allocator());
        names.resize(count, NO_NAME)?;
        number_each(numbers, names.as_mut_slice(), links.as_mut_slice());
        Ok(Listed { names, links })
    }

    // Replaces the numbers of links by those of their new labels, and removes links whose endpoints now have one label.
    pub(crate) fn renumber(
        &mut self,
        labels: &[u32],
        numbers: &Numbers<A>,
        count: usize,
    ) -> Result<(), AllocError>
        requires ends { HaveLabels labels.now (shown self.old.names.items self.old.links.items) }
        requires have_names { HaveNames self.old.names.items self.old.links.items }
        requires counted { AreCounted numbers.now }
        requires marked { HaveMarks labels.now (marks_of numbers.now) self.old.names.items }
        requires count { count ≡ marked_in (marks_of numbers.now) (length numbers.now) }
        ensures names { OnOk result (length self.new.names.items ≡ count) }
        ensures numbered { OnOk result (Relists numbers.now labels.now self.old.names.items self.old.links.items self.new.names.items self.new.links.items) }
        ensures same_names { OnErr result (self.new.names.items ≡ self.old.names.items) }
        ensures same_links { OnErr result (self.new.links.items ≡ self.old.links.items) }
    {
        let alloc = *self.names.allocator();
        let mut names = Vec::new(alloc);
        names.resize(count, NO_NAME)?;
        let mut changed = Vec::new(alloc);
        changed.resize(self.names.len(), NO_NAME)?;
        number_names(
            self.names.as_slice(),
            labels,
            numbers,
            names.as_mut_slice(),
            changed.as_mut_slice(),
        );
        let kept = pack(self.links.as_mut_slice(), changed.as_slice());
        self.links.truncate(kept);
        self.links.shrink_to_fit();
        self.names = names;
        Ok(())
    }
}

// Stored instead of a name that isn't written yet.
const NO_NAME: u32 = 0;
