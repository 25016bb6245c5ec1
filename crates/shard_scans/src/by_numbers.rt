//! Passes over live links that are listed by the numbers of their labels.
ghost use Rattle.std.specs.Prelude.{◌≡◌, ℕ, ◌<◌, ◌≤◌, length, map, slice_index_or, IfOk};
ghost use Rattle.limits.specs.declared.TheConstants.{MAX_SHARD_LINKS};
ghost use Rattle.links.specs.Link.{EndsUpTo};
ghost use Rattle.links.specs.Offers.{Offer};
ghost use Rattle.round_theory.specs.Labelling.{IsVertex};
ghost use Rattle.round_theory.specs.Offers.{AreLightOffers};
ghost use Rattle.shard_scans.specs.Numbers.{marks_of, marked_in, AreCounted, AreListed, AreLiveByNumbers, offered};

use crate::listed::Listed;
use crate::live::keep_all;
use crate::numbers::Numbers;
use crate::table::Table;
use links::{Link, Offers};
use std::alloc::{AllocError, Allocator};

// Returns the offers of listed links. The table is cleared first.
pub(crate) fn offers_of_listed<A: Allocator + Copy>(
    links: &[Link],
    labels: &[u32],
    listed: &Listed<A>,
    numbers: &Numbers<A>,
    table: &mut Table<A>,
) -> Result<Offers<A>, AllocError>
    requires few_links { length links.now ≤ MAX_SHARD_LINKS }
    requires ends { EndsUpTo (length labels.now) links.now }
    requires counted { AreCounted numbers.now }
    requires names { length listed.now.names.items ≡ marked_in (marks_of numbers.now) (length numbers.now) }
    requires live { AreLiveByNumbers links.now labels.now (marks_of numbers.now) listed.now.names.items listed.now.links.items }
    ensures light { IfOk result (AreLightOffers links.now labels.now) }
    ensures listed { AreListed links.now labels.now listed.now.names.items listed.now.links.items }
{
    table.clear(listed.names.len())?;
    keep_all(links, listed.links.as_slice(), table);
    let mut pairs = table.gather()?;
    name_each(pairs.as_mut_slice(), listed.names.as_slice());
    Ok(Offers::of_known(pairs))
}

fn name_each(pairs: &mut [(u32, u32)], names: &[u32])
    requires { (k : ℕ) (d : Offer) → k < length pairs.old → IsVertex (length names.now) (slice_index_or pairs.old k d).0 }
    ensures { pairs.new ≡ map (offered names.now) pairs.old }
{
    for i in 0..pairs.len() {
        let (number, place) = pairs[i];
        pairs[i] = (names[number as usize - 1], place);
    }
}
