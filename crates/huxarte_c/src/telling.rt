//! What adapters wrote before the latest event of a set.

ghost use Rattle.std.specs.Prelude.{◌≡◌, ◌≤◌, ◌++◌, drop, length, map, take};
ghost use Rattle.huxarte_c_calls.specs.Texts.{written as written_into};
ghost use Rattle.huxarte_c_calls.specs.Verdicts.{verdict_by};
ghost use Rattle.huxarte_c.specs.Looking.{told_or};
ghost use Rattle.huxarte_c.specs.Refused.{of_set};
ghost use Rattle.huxarte_c.specs.Written.{region_in, regions_or, written_in, written_seen};

use crate::hux_set::HuxSet;
use crate::kept_set::KeptSet;
use crate::looking::tell;
use crate::refusal::SetRefusal;
use cm_live::Region;
use huxarte_c_calls::HuxVerdict;
use std::alloc::Global;

/// A part of a memory: its address, and how many bytes it has.
#[repr(C)]
#[derive(Clone, Copy)]
pub struct HuxRegion {
    pub at: u32,
    pub size: u32,
}

/// What adapters wrote before the latest event of a set.
#[repr(C)]
#[derive(Clone, Copy)]
pub struct HuxWritten {
    /// How many regions there are: 0 where they wrote nothing.
    pub count: usize,
    /// In the memory of which instance they lie, from 0.
    pub instance: u32,
}

impl HuxRegion {
    /// The region in numbers.
    fn of(region: Region) -> HuxRegion
        ensures { result ≡ region_in region }
    {
        HuxRegion {
            at: region.at,
            size: region.size,
        }
    }
}

/// Puts regions into a buffer, one for one.
fn put_regions(room: &mut [HuxRegion], regions: &[Region])
    requires { length room.old ≡ length regions.now }
    ensures { room.new ≡ map region_in regions.now }
{
    for i in 0..room.len() {
        room[i] = HuxRegion::of(regions[i]);
    }
}

/// Puts the first regions into the front of a buffer.
fn put_front(room: &mut [HuxRegion], regions: &[Region], count: usize)
    requires room { count ≤ length room.old }
    requires regions { count ≤ length regions.now }
    ensures { room.new ≡ map region_in (take count regions.now) ++ drop count room.old }
{
    put_regions(&mut room[..count], &regions[..count]);
}

/// Writes regions into a buffer, as many of them as there is room for. What stands behind them
/// stays.
fn write_regions(room: &mut [HuxRegion], regions: &[Region])
    ensures { room.new ≡ written_into room.old (map region_in regions.now) }
{
    let count = regions.len().min(room.len());
    put_front(room, regions, count);
}

/// What adapters wrote: how many regions, and whose.
fn written_in(kept: &KeptSet) -> HuxWritten
    ensures { result ≡ written_in kept.now }
{
    let told = kept.written();
    HuxWritten {
        count: told.regions.len(),
        instance: told.instance,
    }
}

/// What adapters wrote before the latest event of the set that is kept, whose regions go into a
/// buffer.
fn tell_regions(
    alloc: Global,
    set: &mut HuxSet,
    regions: &mut [HuxRegion],
) -> Result<HuxWritten, SetRefusal>
    ensures seen { result ≡ written_seen set.old.kept }
    ensures regions { regions.new ≡ regions_or regions.old set.old.kept }
    ensures kept { set.new.kept ≡ set.old.kept }
{
    let Some(kept) = set.take(alloc) else {
        return Err(SetRefusal::Empty);
    };
    let seen = written_in(&kept);
    write_regions(regions, &kept.written().regions);
    set.put(alloc, kept);
    Ok(seen)
}

/// Tells what adapters wrote before the latest event: the regions of one instance's memory.
pub fn written(
    alloc: Global,
    set: &mut HuxSet,
    seen: &mut HuxWritten,
    regions: &mut [HuxRegion],
) -> HuxVerdict
    ensures verdict { result ≡ verdict_by of_set (written_seen set.old.kept) }
    ensures seen { seen.new ≡ told_or seen.old (written_seen set.old.kept) }
    ensures regions { regions.new ≡ regions_or regions.old set.old.kept }
    ensures kept { set.new.kept ≡ set.old.kept }
{
    tell(tell_regions(alloc, set, regions), seen)
}
