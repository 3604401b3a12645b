//! The regions of parts.

ghost use Rattle.std.specs.Prelude.{◌≡◌, ◌≤◌, [], length, vec_capacity};
ghost use Rattle.cm_abi_model.specs.Placing.{regions_at};
ghost use Rattle.cm_abi_model.specs.RecordRequests.{AreAskable};

use cm_abi_model::{PartRecord, Region};

/// Puts the regions of parts, each at its place, where there is room for them.
pub(crate) fn put_regions(records: &[PartRecord], places: &[u32], regions: &mut Vec<Region>)
    requires askable { AreAskable records.now }
    requires placed { length records.now ≤ length places.now }
    requires none { regions.old.items ≡ [] }
    requires space { length records.now ≤ vec_capacity regions.old }
    ensures regions { regions.new.items ≡ regions_at records.now places.now }
    ensures room { vec_capacity regions.new ≡ vec_capacity regions.old }
{
    for (i, record) in records.iter().enumerate() {
        regions.push_reserved(Region {
            at: places[i],
            size: record.size as u32,
        });
    }
}
