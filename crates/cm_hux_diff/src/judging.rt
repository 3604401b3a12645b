//! Whether what is offered serves what is wanted.

ghost use Rattle.std.specs.Prelude.{◌≡◌, ◌↔◌, ◌++◌, ◌∷◌, [], IfOk, IsTrue, List, OnOk};
ghost use Rattle.std.specs.Prelude.{map};
ghost use Rattle.cm_types_arena.specs.Replaced.{replaced, replaced_func};
ghost use Rattle.cm_types_numbers.specs.Moved.{brought_func, brought_type};
ghost use Rattle.cm_hux_diff.specs.Breaking.{AreBreaks, Serves};
ghost use Rattle.cm_hux_diff.specs.Held.{Entry as Entries};
ghost use Rattle.cm_hux_diff.specs.Views.{AreKnown, entry_view, held_view, standing_of};
ghost use Rattle.cm_hux_diff.specs.declared.bound.Side.{Side as Sided};

use crate::bound::Side;
use crate::breaking::Break;
use crate::held::{Entry, Held};
use cm_types::same_resource;
use cm_types_arena::Replacement;
use cm_types_numbers::laws::numbers_stay;
use cm_types_numbers::placed_laws::known_stays;
use cm_types_numbers::{Brought, KnownPlaced, Numbers};
use std::alloc::{AllocError, Global};

/// The numbers of the types of both sides, and which are known already, so that each type is
/// numbered once for each way in which its resources are moved.
#[derive(Drop)]
pub(crate) struct Tables {
    numbers: Numbers,
    wanted: KnownPlaced,
    offered: KnownPlaced,
}

impl Tables {
    fn new(alloc: Global) -> Tables
        ensures { (wanted offered : Sided) → AreKnown wanted offered result }
    {
        Tables {
            numbers: Numbers::new(alloc),
            wanted: KnownPlaced::new(alloc),
            offered: KnownPlaced::new(alloc),
        }
    }

    /// Whether two types are equal, each resource in them replaced.
    fn same_types(
        &mut self,
        alloc: Global,
        wanted: &Side<'_>,
        x: Brought,
        offered: &Side<'_>,
        y: Brought,
    ) -> Result<bool, AllocError>
        requires { AreKnown wanted.now offered.now self.old }
        ensures same { IfOk result (λ same. IsTrue same
            ↔ (replaced (standing_of wanted.now) (brought_type wanted.now.types.now x)
            ≡ replaced (standing_of offered.now)
            (brought_type offered.now.types.now y))) }
        ensures known { OnOk result (AreKnown wanted.now offered.now self.new) }
    {
        numbers_stay();
        known_stays();
        let left = self
            .wanted
            .number_type(alloc, &mut self.numbers, wanted, wanted.types, x)?;
        let right = self
            .offered
            .number_type(alloc, &mut self.numbers, offered, offered.types, y)?;
        self.numbers.tell_apart();
        Ok(left == right)
    }

    /// Whether two types of functions are equal, each resource in them replaced.
    fn same_funcs(
        &mut self,
        alloc: Global,
        wanted: &Side<'_>,
        f: Brought,
        offered: &Side<'_>,
        g: Brought,
    ) -> Result<bool, AllocError>
        requires { AreKnown wanted.now offered.now self.old }
        ensures same { IfOk result (λ same. IsTrue same
            ↔ (replaced_func (standing_of wanted.now)
            (brought_func wanted.now.types.now f)
            ≡ replaced_func (standing_of offered.now)
            (brought_func offered.now.types.now g))) }
        ensures known { OnOk result (AreKnown wanted.now offered.now self.new) }
    {
        numbers_stay();
        known_stays();
        let left = self
            .wanted
            .number_func_type(alloc, &mut self.numbers, wanted, wanted.types, f)?;
        let right = self
            .offered
            .number_func_type(alloc, &mut self.numbers, offered, offered.types, g)?;
        self.numbers.tell_apart();
        Ok(left == right)
    }

    /// Whether what is offered serves. Refused only where there is no memory.
    fn serves(
        &mut self,
        alloc: Global,
        wanted: &Side<'_>,
        offered: &Side<'_>,
        held: Held,
    ) -> Result<bool, AllocError>
        requires { AreKnown wanted.now offered.now self.old }
        ensures serves { IfOk result (λ serves. IsTrue serves
            ↔ Serves (standing_of wanted.now) (standing_of offered.now)
            (held_view wanted.now.types.now offered.now.types.now held)) }
        ensures known { OnOk result (AreKnown wanted.now offered.now self.new) }
    {
        match held {
            Held::Nothing => Ok(false),
            Held::Several => Ok(false),
            Held::Sorts => Ok(false),
            Held::Funcs(f, g) => self.same_funcs(alloc, wanted, f, offered, g),
            Held::Types(x, y) => self.same_types(alloc, wanted, x, offered, y),
            Held::Resources(a, b) => Ok(same_resource(wanted.replace(a), offered.replace(b))),
        }
    }
}

/// Adds what does not serve.
fn judge(
    alloc: Global,
    tables: &mut Tables,
    wanted: &Side<'_>,
    offered: &Side<'_>,
    entry: Entry,
    breaks: &mut Vec<Break>,
) -> Result<(), AllocError>
    requires { AreKnown wanted.now offered.now tables.old }
    ensures breaks { OnOk result ((es : List Entries)
        → AreBreaks (standing_of wanted.now) (standing_of offered.now) es breaks.old.items
        → AreBreaks (standing_of wanted.now) (standing_of offered.now)
        (es ++ entry_view wanted.now.types.now offered.now.types.now entry ∷ [])
        breaks.new.items) }
    ensures known { OnOk result (AreKnown wanted.now offered.now tables.new) }
{
    if tables.serves(alloc, wanted, offered, entry.held)? {
        return Ok(());
    }
    breaks.push(entry.as_break())?;
    Ok(())
}

/// All that does not serve, in order. Refused only where there is no memory.
pub(crate) fn breaks_of(
    alloc: Global,
    wanted: &Side<'_>,
    offered: &Side<'_>,
    entries: &[Entry],
) -> Result<Vec<Break>, AllocError>
    ensures { IfOk result (λ breaks. AreBreaks (standing_of wanted.now)
        (standing_of offered.now)
        (map (entry_view wanted.now.types.now offered.now.types.now) entries.now)
        breaks.items) }
{
    let mut tables = Tables::new(alloc);
    let mut breaks = Vec::new(alloc);
    for entry in entries {
        judge(alloc, &mut tables, wanted, offered, *entry, &mut breaks)?;
    }
    Ok(breaks)
}
