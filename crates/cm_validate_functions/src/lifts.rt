//! Lifts that a component exports.

ghost use Rattle.std.specs.Prelude.{◌≡◌, ◌++◌, ℕ, IfOk, List, OnOk, map, option_to_list};
ghost use Rattle.std.specs.Option.{option_map};
ghost use Rattle.cm_types.specs.Types.{FuncTy, Ty};
ghost use Rattle.cm_validate_spaces.specs.cm_validate_entries.Entries.{func_def, member_def};
ghost use Rattle.cm_validate_spaces.specs.cm_validate_entries.Entries.{members_of};
ghost use Rattle.cm_validate_spaces.specs.cm_validate_entries.Entries.{named_member};
ghost use Rattle.cm_validate_spaces.specs.cm_validate_entries.ComponentSpaces.{exported_def};
ghost use Rattle.cm_validate_model.specs.Definitions.{exported_instance};
ghost use Rattle.cm_validate_model.specs.Spaces.{Spaces};
ghost use Rattle.cm_validate_core.specs.NameMaps.{entries_of};
ghost use Rattle.cm_validate_spaces.specs.Checked.{funcs_in, spaces_in};
ghost use Rattle.cm_validate_functions.specs.Kept.{AreFirstOf, AreKept, IsOfNumber, Meets};
ghost use Rattle.cm_validate_functions.specs.Kept.{lift_def, was_met};
ghost use Rattle.cm_validate_functions.specs.Lifts.{LiftDef, lift_in, lift_of_member, lifts_of};
ghost use Rattle.cm_validate_functions.specs.Lifts.{lifts_of_export, lifts_of_members};

use cm_binary_model::CanonOption;
use cm_types_arena::Placed;
use cm_validate_core::NameMap;
use cm_validate_items::Shared;
use cm_validate_spaces::{Checked, ExportedEntry, FuncEntry, InstanceEntry, MemberEntry};
use std::alloc::{AllocError, Global};
use std::collections::BTreeSet;

/// A lift that a component exports (Explainer.md, "Canonical Definitions").
#[derive(Clone, Copy)]
pub struct Lift<'a> {
    /// The number of the export, from 0.
    pub export: usize,
    /// The name that the function has there, where the export is an instance.
    pub item: Option<&'a str>,
    /// The core function that is lifted, by its index.
    pub core_func: u32,
    /// The type to which it is lifted, by its place among those of functions.
    pub ty: Placed,
    pub options: &'a [CanonOption],
}

/// Adds the lift that a function of an export is, if it is one.
fn add_func<'a>(
    lifts: &mut Vec<Lift<'a>>,
    export: usize,
    item: Option<&'a str>,
    func: FuncEntry<'a>,
) -> Result<(), AllocError>
    ensures { OnOk result ((funcs : List FuncTy) → map (lift_def funcs) lifts.new.items
        ≡ map (lift_def funcs) lifts.old.items ++ option_to_list
        (lift_in export (option_map (λ n. n.now) item.entry) (func_def funcs func.entry))) }
{
    if let FuncEntry::Lifted {
        core_func,
        ty,
        options,
    } = func
    {
        lifts.push(Lift {
            export,
            item,
            core_func,
            ty,
            options,
        })?;
    }
    Ok(())
}

/// Adds the lift that a member of an exported instance is, if it is one.
fn add_member<'a>(
    lifts: &mut Vec<Lift<'a>>,
    export: usize,
    name: &'a str,
    member: MemberEntry<'a>,
) -> Result<(), AllocError>
    ensures { OnOk result ((types : List Ty) (funcs : List FuncTy)
        → map (lift_def funcs) lifts.new.items ≡ map (lift_def funcs) lifts.old.items
        ++ lift_of_member export
        (record { name = name.now; def = member_def types funcs member.entry })) }
{
    match member {
        MemberEntry::Func(func) => add_func(lifts, export, Some(name), func),
        MemberEntry::Value(_) | MemberEntry::Resource(_) => Ok(()),
    }
}

/// Adds the lifts among the members of an exported instance.
fn add_members<'a>(
    lifts: &mut Vec<Lift<'a>>,
    export: usize,
    members: &NameMap<'a, MemberEntry<'a>>,
) -> Result<(), AllocError>
    ensures { OnOk result ((types : List Ty) (funcs : List FuncTy)
        → map (lift_def funcs) lifts.new.items ≡ map (lift_def funcs) lifts.old.items
        ++ lifts_of_members export (map (named_member types funcs) (entries_of members.now))) }
{
    for number in 0..members.len() {
        if let Some((name, member)) = members.at(number) {
            add_member(lifts, export, name, *member)?;
        }
    }
    Ok(())
}

/// Adds the lifts of an exported instance.
fn add_instance<'a>(
    lifts: &mut Vec<Lift<'a>>,
    export: usize,
    instance: &InstanceEntry<'a>,
) -> Result<(), AllocError>
    ensures { OnOk result ((types : List Ty) (funcs : List FuncTy)
        → map (lift_def funcs) lifts.new.items ≡ map (lift_def funcs) lifts.old.items
        ++ lifts_of_members export (members_of types funcs instance.now)) }
{
    match instance {
        InstanceEntry::Imported { .. } => Ok(()),
        InstanceEntry::Exporting(members) => add_members(lifts, export, members),
    }
}

/// Whether an instance was met before, by its number; it is met now.
fn was_met(met: &mut BTreeSet<usize>, number: Option<usize>) -> Result<bool, AllocError>
    ensures was { IfOk result (λ was. was ≡ was_met number met.old) }
    ensures met { OnOk result (Meets number met.old met.new) }
{
    let Some(number) = number else {
        return Ok(false);
    };
    Ok(!met.insert(number)?)
}

/// Adds the lifts of an exported instance of this number, if it has one, where none of the number
/// was met before.
fn add_once<'a>(
    lifts: &mut Vec<Lift<'a>>,
    met: &mut BTreeSet<usize>,
    export: usize,
    number: Option<usize>,
    instance: &InstanceEntry<'a>,
) -> Result<(), AllocError>
    ensures { OnOk result ((types : List Ty) (funcs : List FuncTy) (s : Spaces)
        (all : List LiftDef)
        → IsOfNumber s number (exported_instance (members_of types funcs instance.now))
        → AreKept funcs s all met.old lifts.old.items
        → AreKept funcs s (all ++ lifts_of_members export (members_of types funcs instance.now))
        met.new lifts.new.items) }
{
    let was = was_met(met, number)?;
    if was {
        return Ok(());
    }
    add_instance(lifts, export, instance)
}

/// Adds the lifts of an export, of the instance of this number, if it has one. Where the instance
/// was met before, its lifts use no core functions that others do not use.
fn add_export<'a>(
    lifts: &mut Vec<Lift<'a>>,
    met: &mut BTreeSet<usize>,
    export: usize,
    number: Option<usize>,
    def: &ExportedEntry<'a>,
) -> Result<(), AllocError>
    ensures { OnOk result ((types : List Ty) (funcs : List FuncTy) (s : Spaces)
        (all : List LiftDef) → IsOfNumber s number (exported_def types funcs def.now)
        → AreKept funcs s all met.old lifts.old.items
        → AreKept funcs s (all ++ lifts_of_export export (exported_def types funcs def.now))
        met.new lifts.new.items) }
{
    match def {
        ExportedEntry::Func(func) => add_func(lifts, export, None, *func),
        ExportedEntry::Instance(instance) => add_once(lifts, met, export, number, instance),
    }
}

/// Lifts that a component exports, in order: for each core function the first that uses it. Those
/// of an instance are there once, however many exports are that instance.
pub(crate) fn exported_lifts<'a>(
    alloc: Global,
    checked: &Checked<'a>,
) -> Result<Vec<Lift<'a>>, AllocError>
    ensures { IfOk result (λ lifts. AreFirstOf (lifts_of (spaces_in checked.now))
        (map (lift_def (funcs_in checked.now)) lifts.items)) }
{
    let shared = Shared::new(alloc, checked.component())?;
    let exports = checked.exports();
    let mut met = BTreeSet::new(alloc);
    let mut lifts = Vec::new(alloc);
    for (export, entry) in exports.iter().enumerate() {
        let number = shared.exported_instance(export);
        add_export(&mut lifts, &mut met, export, number, &entry.def)?;
    }
    Ok(lifts)
}
