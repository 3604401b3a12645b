//! The numbers of the types of a set.

ghost use Rattle.std.specs.Prelude.{◌≡◌, ◌↔◌, IfOk, IsTrue, List, OnOk, Some, length};
ghost use Rattle.cm_types_arena.specs.Replaced.{replaced, replaced_func};
ghost use Rattle.cm_types_numbers.specs.Numbering.{Extends, number, number_func, numbering};
ghost use Rattle.cm_match_model.specs.Serving.{IsSameFunc, IsSameType};
ghost use Rattle.cm_match_serving.specs.Linkings.{components_in};
ghost use Rattle.cm_match_serving.specs.Knowing.{AreUnknown};

use crate::sides::{Pair, Side};
use cm_types_numbers::laws::numbers_stay;
use cm_types_numbers::placed_laws::known_stays;
use cm_types_numbers::{Brought, KnownPlaced, Numbers};
use std::alloc::{AllocError, Global};

/// The numbers of the types of a set, two of which are equal exactly where the types are, once each
/// resource is what it is in the end; and which are known already of each component, so that each
/// type is numbered once for each way in which its resources are moved.
#[derive(Drop)]
pub struct Tables {
    pub(crate) numbers: Numbers,
    pub(crate) known: Vec<KnownPlaced>,
}

/// Tables for so many components, in which nothing is known.
fn unknown(alloc: Global, count: usize) -> Result<Vec<KnownPlaced>, AllocError>
    ensures count { IfOk result (λ known. length known.items ≡ count) }
    ensures unknown { IfOk result (λ known. AreUnknown known.items) }
{
    let mut known = Vec::with_capacity(alloc, count)?;
    for _component in 0..count {
        known.push(KnownPlaced::new(alloc))?;
    }
    Ok(known)
}

impl Tables {
    ghost use Rattle.cm_match_serving.specs.declared.linking.Linking.{Linking};
    ghost use Rattle.cm_match_serving.specs.Sides.{funcs_in, had_funcs, had_types, set_of_pair};
    ghost use Rattle.cm_match_serving.specs.Sides.{standing_of, types_in, wanted_funcs};
    ghost use Rattle.cm_match_serving.specs.Sides.{wanted_types};
    ghost use Rattle.cm_match_serving.specs.Tables.{AreKnown, func_brought, type_brought};

    /// Tables for a set of so many components. `AllocError` comes where there is no memory.
    pub fn new(alloc: Global, count: usize) -> Result<Tables, AllocError>
        ensures { IfOk result (λ t. (l : Linking) → length (components_in l) ≡ count
            → AreKnown l t) }
    {
        Ok(Tables {
            numbers: Numbers::new(alloc),
            known: unknown(alloc, count)?,
        })
    }

    /// The number of a type of a component, as an item brings it.
    fn number_type(
        &mut self,
        alloc: Global,
        side: &Side<'_, '_>,
        ty: Brought,
    ) -> Result<usize, AllocError>
        requires { AreKnown side.now.linking self.old }
        ensures number { IfOk result (λ n. number (numbering self.new.numbers)
            (replaced (standing_of side.now) (type_brought (types_in side.now) ty)) ≡ Some n) }
        ensures known { AreKnown side.now.linking self.new }
        ensures kept { Extends (numbering self.old.numbers) (numbering self.new.numbers) }
    {
        known_stays();
        let types = side.linking.components()[side.component].types();
        let Some(known) = self.known.get_mut(side.component) else {
            unreachable!();
        };
        known.number_type(alloc, &mut self.numbers, side, types, ty)
    }

    /// The number of the type of a function of a component, as an item brings it.
    fn number_func(
        &mut self,
        alloc: Global,
        side: &Side<'_, '_>,
        func: Brought,
    ) -> Result<usize, AllocError>
        requires { AreKnown side.now.linking self.old }
        ensures number { IfOk result (λ n. number_func (numbering self.new.numbers)
            (replaced_func (standing_of side.now) (func_brought (funcs_in side.now) func))
            ≡ Some n) }
        ensures known { AreKnown side.now.linking self.new }
        ensures kept { Extends (numbering self.old.numbers) (numbering self.new.numbers) }
    {
        known_stays();
        let types = side.linking.components()[side.component].types();
        let Some(known) = self.known.get_mut(side.component) else {
            unreachable!();
        };
        known.number_func_type(alloc, &mut self.numbers, side, types, func)
    }

    /// Whether a type of the importer is one of the provider.
    pub(crate) fn same_types(
        &mut self,
        alloc: Global,
        pair: &Pair<'_, '_>,
        wanted: Brought,
        have: Brought,
    ) -> Result<bool, AllocError>
        requires { AreKnown pair.now.linking self.old }
        ensures same { IfOk result (λ same. IsTrue same ↔ IsSameType (set_of_pair pair.now)
            pair.now.importer (type_brought (wanted_types pair.now) wanted)
            pair.now.provider (type_brought (had_types pair.now) have)) }
        ensures known { OnOk result (AreKnown pair.now.linking self.new) }
    {
        numbers_stay();
        let left = self.number_type(alloc, &pair.importer(), wanted)?;
        let right = self.number_type(alloc, &pair.provider(), have)?;
        self.numbers.tell_apart();
        Ok(left == right)
    }

    /// Whether the type of a function of the importer is that of one of the provider.
    pub(crate) fn same_funcs(
        &mut self,
        alloc: Global,
        pair: &Pair<'_, '_>,
        wanted: Brought,
        have: Brought,
    ) -> Result<bool, AllocError>
        requires { AreKnown pair.now.linking self.old }
        ensures same { IfOk result (λ same. IsTrue same ↔ IsSameFunc (set_of_pair pair.now)
            pair.now.importer (func_brought (wanted_funcs pair.now) wanted)
            pair.now.provider (func_brought (had_funcs pair.now) have)) }
        ensures known { OnOk result (AreKnown pair.now.linking self.new) }
    {
        numbers_stay();
        let left = self.number_func(alloc, &pair.importer(), wanted)?;
        let right = self.number_func(alloc, &pair.provider(), have)?;
        self.numbers.tell_apart();
        Ok(left == right)
    }
}
