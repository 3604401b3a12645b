//! Values where they stand in a memory, as a source.

ghost use Rattle.std.specs.Prelude.{◌≡◌, ◌+◌, ◌*◌, ◌<◌, ◌≤◌, length, refl, slice_index, ℕ};
ghost use Rattle.cm_abi_model.specs.Numbers.{number_at as bytes_at};
ghost use Rattle.cm_abi_running.specs.Copying.{copying_of, given_for, shown_to};
ghost use Rattle.cm_abi_running.specs.Ready.{AreFieldsReady, AreReady, FieldsLieIn, IsReady};
ghost use Rattle.cm_abi_running.specs.Ready.{IsSound};
ghost use Rattle.cm_abi_running.specs.Ready.{LiesIn};
ghost use Rattle.cm_abi_running.specs.Shown.{scalars_at, some_handle, values_at, values_each};

use cm_abi_load::{leaf_size, number_32, number_at};
use cm_abi_model::StringEncoding;
use cm_abi_running::{Copier, number_stored, size_of_part, write_text_at};
use cm_abi_store::{StoredSource, ValueSource};
use cm_layout::{Layout, Leaf, Part};

/// Where a value stands in the memory that it is copied from.
#[derive(Clone, Copy)]
pub struct Place<'a> {
    pub from: &'a Copier<'a>,
    /// The address, in bytes from 0.
    pub at: usize,
}

/// Each number in bytes is one of 8 bits.
pub(crate) fn are_bytes(bytes: &[u8])
    ensures { (i : ℕ) → slice_index bytes.now i < 256 }
{}

/// The address so many bytes behind one in a memory.
fn behind(memory: &[u8], at: usize, size: u32) -> usize
    requires { at + size ≤ length memory.now }
    ensures { result ≡ at + size }
{
    at + size as usize
}

impl<'a> ValueSource for Place<'a> {
    type Rest = Place<'a>;

    ghost value = { λ s sh. shown_to (copying_of s.from.now) sh s.at };

    ghost ready = { λ s n g e sh k h.
        LiesIn (length s.from.now.memory.now) s.at (record { head = e; shape = sh })
        × IsReady n (given_for (copying_of s.from.now) g) sh s.at k h };

    ghost scalars = { λ s. scalars_at s.from.now.memory.now s.from.now.encoding
        (bytes_at 4 s.from.now.memory.now s.at) (bytes_at 4 s.from.now.memory.now (s.at + 4)) };

    ghost values_left = { λ r e sh count.
        values_each (shown_to (copying_of r.from.now) sh) e.size count r.at };

    ghost values_ready = { λ r n g e sh count k h. IsSound (record { head = e; shape = sh })
        × (r.at + count * e.size ≤ length r.from.now.memory.now)
        × AreReady (IsReady n (given_for (copying_of r.from.now) g) sh)
        (shown_to (copying_of r.from.now) sh) e.size count r.at k h };

    ghost fields_left = { λ r ps. values_at r.from.now.memory.now r.from.now.encoding ps r.at };

    ghost fields_ready = { λ r n g ps k h. FieldsLieIn (length r.from.now.memory.now) r.at ps
        × AreFieldsReady n (given_for (copying_of r.from.now) g) ps r.at k h };

    ghost no_elements = { λ r n g e sh k h ready. refl };

    ghost no_fields = { λ r n g k h ready. refl };

    ghost is_handle = { λ s n g e t k h ready. (ready.1, some_handle, refl) };

    fn leaf(self, leaf: Leaf) -> u64 {
        number_stored(leaf, number_at(self.from.memory, leaf_size(leaf), self.at))
    }

    fn text_size(self, target: StringEncoding, part: usize) -> usize {
        size_of_part(self.from, part)
    }

    fn write_text(
        self,
        target: StringEncoding,
        memory: &mut [u8],
        at: usize,
        size: usize,
        part: usize,
    ) {
        let pointer = number_32(self.from.memory, self.at);
        let tagged = number_32(self.from.memory, behind(self.from.memory, self.at, 4));
        write_text_at(self.from, pointer, tagged, target, memory, at, size, part);
    }

    fn items(self, count: usize) -> Place<'a> {
        self
    }

    fn fields(self) -> Place<'a> {
        self
    }

    fn case(self, discriminant: u32, offset: u32) -> (u32, Option<Place<'a>>) {
        let index = number_at(self.from.memory, discriminant, self.at);
        let payload = Place {
            from: self.from,
            at: behind(self.from.memory, self.at, offset),
        };
        (index as u32, Some(payload))
    }

    fn next_element(rest: &mut Place<'a>, element: &Layout) -> Place<'a> {
        let place = *rest;
        rest.at = behind(rest.from.memory, rest.at, element.head.size);
        place
    }

    fn next_field(rest: &mut Place<'a>, part: &Part) -> Place<'a> {
        Place {
            from: rest.from,
            at: behind(rest.from.memory, rest.at, part.offset),
        }
    }

    fn plain_bytes<'b>(rest: &'b Place<'a>, element: &Layout, count: usize) -> Option<&'b [u8]> {
        are_bytes(rest.from.memory);
        let size = count * element.head.size as usize;
        Some(&rest.from.memory[rest.at..rest.at + size])
    }
}

impl<'a> StoredSource for Place<'a> {
    fn elements(self) -> (usize, Place<'a>) {
        let pointer = number_32(self.from.memory, self.at);
        let count = number_32(self.from.memory, behind(self.from.memory, self.at, 4));
        let elements = Place {
            from: self.from,
            at: pointer as usize,
        };
        (count as usize, elements)
    }
}
