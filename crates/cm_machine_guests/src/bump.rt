//! An allocator that gives out the regions of a range one behind the other.

ghost use Rattle.cm_machine_guests.specs.Regions.{IsAnswer};

use cm_machine_model::PAGE_SIZE;

/// A range of a memory that is given out from its start on, one region behind the other. No region
/// is taken back.
#[derive(Clone, Copy, Debug, PartialEq, Eq)]
pub struct Bump {
    /// The address from which on nothing is given out yet.
    pub next: u32,
    /// The address behind the range.
    pub end: u32,
}

/// What an allocator answers to a request for a region.
#[derive(Clone, Copy, Debug, PartialEq, Eq)]
pub enum Room {
    /// The region starts at this address.
    At(u32),
    /// The region has room, and the memory has to grow by so many pages first. Nothing is given out
    /// yet.
    Grow(u32),
    /// The range has no room for the region, or the alignment is 0.
    Full,
}

impl Bump {
    /// Asks for a region of `size` bytes at a multiple of `align`, in a memory of so many bytes.
    ///
    /// A region is behind all that were given out before. Only `Room::At` changes the allocator.
    pub fn allocate(&mut self, size: u32, align: u32, bytes: usize) -> Room
        ensures { IsAnswer self.old size align bytes result self.new }
    {
        if align == 0 {
            return Room::Full;
        }
        let at = u64::from(self.next).next_multiple_of(u64::from(align));
        let end = at + u64::from(size);
        if u64::from(self.end) < end {
            return Room::Full;
        }
        let missing = end.saturating_sub(bytes as u64);
        if missing > 0 {
            return Room::Grow(missing.div_ceil(PAGE_SIZE as u64) as u32);
        }
        self.next = end as u32;
        Room::At(at as u32)
    }
}
