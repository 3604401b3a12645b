//! What is known of the items of instances, kept for all imports or exports of one number.

ghost use Rattle.std.specs.Prelude.{◌≡◌, Some, IsSome, OnOk};
ghost use Rattle.std.specs.BTreeMap.{get};
ghost use Rattle.std.specs.Option.{option_map};
ghost use Rattle.std.specs.Ordering.{nat_cmp};
ghost use Rattle.cm_types_arena.specs.declared.types.Types.{Types};
ghost use Rattle.cm_types_arena.specs.Listed.{names_at, number_at};
ghost use Rattle.cm_types_arena.specs.declared.named_externs.Externs.{Externs as Listed};
ghost use Rattle.cm_wit_conforms.specs.Places.{item_names};

use crate::known::KnownItems;
use cm_types_arena::signature_laws::equal_numbers_have_equal_names;
use cm_types_arena::{Externs, Items};
use std::alloc::{AllocError, Global};
use std::collections::BTreeMap;

/// What is known of items, by the numbers of the imports or exports whose items they are.
#[derive(Drop)]
pub(crate) struct Kept<'a> {
    known: BTreeMap<usize, KnownItems<'a>>,
}

impl<'a> Kept<'a> {
    ghost use Rattle.cm_wit_conforms.specs.Walks.{AreKept};

    /// Nothing yet.
    pub(crate) fn new(alloc: Global) -> Kept<'a>
        ensures { (externs : Listed) → AreKept externs result }
    {
        Kept {
            known: BTreeMap::new(alloc),
        }
    }

    /// Keeps what is known of the items of the import or export at a place, which has this number,
    /// unless that is kept already.
    pub(crate) fn keep(
        &mut self,
        alloc: Global,
        externs: &Externs,
        place: usize,
        number: usize,
        items: Items<'a>,
    ) -> Result<(), AllocError>
        requires number { number_at externs.now place ≡ Some number }
        requires names { (t : Types) → names_at t externs.now place ≡ item_names t items }
        requires kept { AreKept externs.now self.old }
        ensures kept { OnOk result (AreKept externs.now self.new) }
        ensures there { OnOk result (IsSome (get nat_cmp self.new.known number)) }
    {
        equal_numbers_have_equal_names();
        if self.known.get(&number).is_none() {
            let known = KnownItems::new(alloc, items)?;
            self.known.insert(number, known)?;
        }
        Ok(())
    }

    /// What is kept of a number.
    pub(crate) fn known(&self, number: usize) -> Option<&KnownItems<'a>>
        ensures { option_map (λ k. k.now) result ≡ get nat_cmp self.now.known number }
    {
        self.known.get(&number)
    }
}
