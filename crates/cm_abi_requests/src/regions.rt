//! Regions of a memory, and whether they overlap.

ghost use Rattle.std.specs.Prelude.{◌↔◌, IsTrue};
ghost use Rattle.std.specs.List.Sorted.{IsNonDecreasingBy, IsPermutation};
ghost use Rattle.cm_abi_model.specs.Overlap.{AreDisjoint};

use cm_abi_model::Region;

/// Whether each region begins where those before it have ended, or behind that; an empty one may
/// begin anywhere. Then no address is in two of them; and where they stand in the order of their
/// addresses, else one is.
fn are_in_turn(regions: &[Region]) -> bool
    ensures apart { IsTrue result → AreDisjoint regions.now }
    ensures ascending { IsNonDecreasingBy (λ (r : Region). r.at) regions.now
        → AreDisjoint regions.now → IsTrue result }
{
    let mut end: u64 = 0;
    for region in regions {
        if region.size > 0 {
            if u64::from(region.at) < end {
                return false;
            }
            end = u64::from(region.at) + u64::from(region.size);
        }
    }
    true
}

/// Whether no address is in two of the regions; an empty one has no address. They are looked at as
/// they stand first, and put into the order of their addresses only where that does not tell. It
/// takes no memory, and time by their number, but for a logarithm.
pub fn are_disjoint(regions: &mut [Region]) -> bool
    ensures answer { IsTrue result ↔ AreDisjoint regions.old }
    ensures moved { IsPermutation regions.old regions.new }
{
    if are_in_turn(regions) {
        return true;
    }
    regions.sort_unstable_by_key(|region| region.at);
    are_in_turn(regions)
}
