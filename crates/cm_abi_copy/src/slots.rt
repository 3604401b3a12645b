//! A source of values that takes them from the core values of a call, and what a pointer among
//! these leads to from a memory.

ghost use Rattle.std.specs.Prelude.{◌≡◌, ℕ, ◌+◌, ◌*◌, ◌<◌, ◌≤◌, length, refl};
ghost use Rattle.cm_types.specs.declared.limits.TheConstants.{MAX_FLAT_PARAMS};
ghost use Rattle.cm_abi_model.specs.Numbers.{wrapped_at as wrapped};
ghost use Rattle.cm_abi_running.specs.Copying.{copying_of};
ghost use Rattle.cm_abi_running.specs.Ready.{AreReady, IsSound};
ghost use Rattle.cm_abi_running.specs.Shown.{scalars_at, some_handle, values_each};
ghost use Rattle.cm_abi_copy.specs.FlatReady.{AreFieldsInSlots, AreFlatFieldsReady, IsFlatReady};
ghost use Rattle.cm_abi_copy.specs.FlatReady.{IsInSlots};
ghost use Rattle.cm_abi_copy.specs.FlatShown.{flat_shown, flat_shown_fields};
ghost use Rattle.cm_abi_copy.specs.SlotLaws.{has_number};
ghost use Rattle.cm_abi_store.specs.FlatLowering.{IsPassedIn};
ghost use Rattle.cm_abi_store.specs.Storing.{given_of};

use crate::place::Place;
use cm_abi_lift::{number_32, wrapped_at};
use cm_abi_load::core_size;
use cm_abi_model::StringEncoding;
use cm_abi_running::{Copier, number_stored, size_of_part, write_text_at};
use cm_abi_store::{PassedSource, ValueSource};
use cm_layout::{Layout, Leaf, Part};
use cm_types::CoreValue;

/// Where a value stands in the core values that it is copied from, for the target of its copier.
#[derive(Clone, Copy)]
pub(crate) struct Slots<'a> {
    pub(crate) from: &'a Copier<'a>,
    /// The core values that pass the whole.
    pub(crate) given: &'a [CoreValue],
    /// The first of this one's, from 0.
    pub(crate) at: usize,
}

impl<'a> ValueSource for Slots<'a> {
    type Rest = Slots<'a>;

    ghost value = { λ s sh. flat_shown (copying_of s.from.now) s.given.now sh s.at };

    ghost ready = { λ s n g e sh k h. (g ≡ given_of s.from.now.target)
        × IsInSlots MAX_FLAT_PARAMS s.at (record { head = e; shape = sh })
        × IsFlatReady n (copying_of s.from.now) s.given.now sh s.at k h };

    ghost scalars = { λ s. scalars_at s.from.now.memory.now s.from.now.encoding
        (wrapped 4 s.given.now s.at) (wrapped 4 s.given.now (s.at + 1)) };

    ghost values_left = { λ r e sh count.
        values_each (flat_shown (copying_of r.from.now) r.given.now sh) e.width count r.at };

    ghost values_ready = { λ r n g e sh count k h. (g ≡ given_of r.from.now.target)
        × IsPassedIn e.width sh × IsSound (record { head = e; shape = sh })
        × (r.at + count * e.width ≤ MAX_FLAT_PARAMS)
        × AreReady (IsFlatReady n (copying_of r.from.now) r.given.now sh)
        (flat_shown (copying_of r.from.now) r.given.now sh) e.width count r.at k h };

    ghost fields_left = { λ r ps.
        flat_shown_fields (copying_of r.from.now) r.given.now ps r.at };

    ghost fields_ready = { λ r n g ps k h. (g ≡ given_of r.from.now.target)
        × AreFieldsInSlots MAX_FLAT_PARAMS r.at ps
        × AreFlatFieldsReady n (copying_of r.from.now) r.given.now ps r.at k h };

    ghost no_elements = { λ r n g e sh k h ready. refl };

    ghost no_fields = { λ r n g k h ready. refl };

    ghost is_handle = { λ s n g e t k h ready.
        (has_number g (given_of s.from.now.target) h ready.0 ready.2, some_handle, refl) };

    fn leaf(self, leaf: Leaf) -> u64 {
        number_stored(leaf, wrapped_at(self.given, core_size(leaf), self.at))
    }

    fn text_size(self, target: StringEncoding, part: usize) -> usize {
        size_of_part(self.from, part)
    }

    fn write_text(
        self,
        target: StringEncoding,
        memory: &mut [u8],
        at: usize,
        size: usize,
        part: usize,
    ) {
        let pointer = number_32(self.given, self.at);
        let tagged = number_32(self.given, self.at + 1);
        write_text_at(self.from, pointer, tagged, target, memory, at, size, part);
    }

    fn items(self, count: usize) -> Slots<'a> {
        self
    }

    fn fields(self) -> Slots<'a> {
        self
    }

    fn case(self, discriminant: u32, offset: u32) -> (u32, Option<Slots<'a>>) {
        let index = number_32(self.given, self.at);
        let payload = Slots {
            from: self.from,
            given: self.given,
            at: self.at + 1,
        };
        (index, Some(payload))
    }

    fn next_element(rest: &mut Slots<'a>, element: &Layout) -> Slots<'a> {
        let slots = *rest;
        rest.at += element.head.width as usize;
        slots
    }

    fn next_field(rest: &mut Slots<'a>, part: &Part) -> Slots<'a> {
        let slots = *rest;
        rest.at += part.layout.head.width as usize;
        slots
    }

    fn plain_bytes<'b>(rest: &'b Slots<'a>, element: &Layout, count: usize) -> Option<&'b [u8]> {
        None
    }
}

impl<'a> PassedSource for Slots<'a> {
    type Stored = Place<'a>;

    fn stored_elements(self) -> (usize, Place<'a>) {
        let pointer = number_32(self.given, self.at);
        let count = number_32(self.given, self.at + 1);
        let elements = Place {
            from: self.from,
            at: pointer as usize,
        };
        (count as usize, elements)
    }
}
