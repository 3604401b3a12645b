//! What inline exports name.

ghost use Rattle.std.specs.Prelude.{◌≡◌, ◌++◌, ◌∷◌, [], IfOk, List, OnOk, MatchOption};
ghost use Rattle.std.specs.Prelude.{map, slice_get, true};
ghost use Rattle.std.specs.List.{flat_map};
ghost use Rattle.cm_types.specs.Types.{FuncTy, Ty};
ghost use Rattle.cm_types_arena.specs.Places.{funcs_of, types_of};
ghost use Rattle.cm_validate_model.specs.Reasons.{least, lesser};
ghost use Rattle.cm_validate_model.specs.Rules.{are_distinct_texts, member_broken};
ghost use Rattle.cm_validate_model.specs.Spaces.{Spaces};
ghost use Rattle.cm_validate_instances.specs.ItemSketches.{sketch_named};
ghost use Rattle.cm_validate_core.specs.NameMaps.{entries_of};
ghost use Rattle.cm_validate_instances.specs.Members.{AreMembers, IsAnswered, Stand};
ghost use Rattle.cm_validate_instances.specs.Members.{entry_answer};
ghost use Rattle.cm_validate_instances.specs.Members.{export_sketches, sketch_member};
ghost use Rattle.cm_validate_instances.specs.Members.{type_answer};

use crate::item_sketches::NamedSketch;
use crate::member_sketches::item_sketch;
use cm_binary_model::{InlineExport, InstanceExportSort};
use cm_types_arena::Types;
use cm_validate_core::{NameMap, lesser};
use cm_validate_entries::{ComponentSpaces, MemberEntry};
use cm_validate_model::ValidReason;
use cm_validate_model::laws::least_of_both;
use cm_validate_types::TypeEntry;
use std::alloc::{AllocError, Global};

/// The member that a type is: a value type or a resource.
fn entry_member<'a>(ty: &TypeEntry) -> Result<MemberEntry<'a>, ValidReason>
    ensures { result ≡ entry_answer ty.now }
{
    match ty {
        TypeEntry::Value(place) => Ok(MemberEntry::Value(*place)),
        TypeEntry::Resource(number) => Ok(MemberEntry::Resource(*number)),
        TypeEntry::Func(_) | TypeEntry::Instance(_) => Err(ValidReason::WrongSort),
    }
}

/// The member that the type of an index is.
fn type_at<'a>(types: &[TypeEntry], index: u32) -> Result<MemberEntry<'a>, ValidReason>
    ensures { result ≡ type_answer (slice_get types.now index) }
{
    match types.get(index as usize) {
        None => Err(ValidReason::NoSuchIndex),
        Some(entry) => entry_member(entry),
    }
}

/// The member that an export names; or why it is refused: `NoSuchIndex` where it names nothing,
/// `WrongSort` where it names a type that is neither a value type nor a resource.
pub(crate) fn member_at<'a>(
    spaces: &ComponentSpaces<'a>,
    types: &[TypeEntry],
    export: &InlineExport,
) -> Result<MemberEntry<'a>, ValidReason>
    ensures { (tys : List Ty) (funcs : List FuncTy) (s : Spaces)
        → Stand tys funcs spaces.now types.now s
        → IsAnswered tys funcs s export.now result }
{
    match export.sort {
        InstanceExportSort::Type => type_at(types, export.index),
        InstanceExportSort::Func => match spaces.func(export.index) {
            Some(func) => Ok(MemberEntry::Func(func)),
            None => Err(ValidReason::NoSuchIndex),
        },
    }
}

/// Adds the sketch of the item that a member is.
fn push_sketch(
    sketches: &mut Vec<NamedSketch>,
    arena: &Types,
    export: &InlineExport,
    member: MemberEntry<'_>,
) -> Result<(), AllocError>
    ensures { OnOk result (map sketch_named sketches.new.items
        ≡ map sketch_named sketches.old.items
        ++ (export.now.name, sketch_member (funcs_of arena.now) member.entry) ∷ []) }
{
    let name = export.name.clone()?;
    let item = item_sketch(arena, member);
    sketches.push(NamedSketch { name, item })?;
    Ok(())
}

/// Why an export is refused, besides the fault that was found before, and the sketch of its item.
fn examine_one(
    sketches: &mut Vec<NamedSketch>,
    fault: Option<ValidReason>,
    spaces: &ComponentSpaces<'_>,
    arena: &Types,
    types: &[TypeEntry],
    export: &InlineExport,
) -> Result<Option<ValidReason>, AllocError>
    ensures broken { IfOk result (λ f. (s : Spaces)
        → Stand (types_of arena.now) (funcs_of arena.now) spaces.now types.now s
        → f ≡ lesser fault (least (member_broken s export.now))) }
    ensures sketched { OnOk result ((s : Spaces)
        → Stand (types_of arena.now) (funcs_of arena.now) spaces.now types.now s
        → map sketch_named sketches.new.items
        ≡ map sketch_named sketches.old.items ++ export_sketches s export.now) }
{
    match member_at(spaces, types, export) {
        Ok(member) => {
            push_sketch(sketches, arena, export, member)?;
            Ok(fault)
        }
        Err(reason) => Ok(lesser(fault, Some(reason))),
    }
}

/// Why exports are refused, but for their names, and the sketches of their items.
pub(crate) fn examine(
    sketches: &mut Vec<NamedSketch>,
    spaces: &ComponentSpaces<'_>,
    arena: &Types,
    types: &[TypeEntry],
    exports: &[InlineExport],
) -> Result<Option<ValidReason>, AllocError>
    ensures broken { IfOk result (λ f. (s : Spaces)
        → Stand (types_of arena.now) (funcs_of arena.now) spaces.now types.now s
        → f ≡ least (flat_map (member_broken s) exports.now)) }
    ensures sketched { OnOk result ((s : Spaces)
        → Stand (types_of arena.now) (funcs_of arena.now) spaces.now types.now s
        → map sketch_named sketches.new.items
        ≡ map sketch_named sketches.old.items ++ flat_map (export_sketches s) exports.now) }
{
    least_of_both();
    let mut fault = None;
    for export in exports {
        fault = examine_one(sketches, fault, spaces, arena, types, export)?;
    }
    Ok(fault)
}

/// The members of exports that violate no rule, under their names; each name is looked up once, in
/// a tree.
pub(crate) fn gather<'a>(
    alloc: Global,
    spaces: &ComponentSpaces<'a>,
    types: &[TypeEntry],
    exports: &'a [InlineExport],
) -> Result<Option<NameMap<'a, MemberEntry<'a>>>, AllocError>
    ensures { IfOk result (λ members. (tys : List Ty) (funcs : List FuncTy) (s : Spaces)
        → Stand tys funcs spaces.now types.now s
        → flat_map (member_broken s) exports.now ≡ []
        → are_distinct_texts (map (λ e. e.name) exports.now) ≡ true
        → MatchOption members ⊥ (λ m. AreMembers tys funcs s exports.now (entries_of m))) }
{
    let mut members = NameMap::new(alloc);
    for export in exports {
        let Ok(member) = member_at(spaces, types, export) else {
            return Ok(None);
        };
        if !members.insert(export.name.as_str(), member)? {
            return Ok(None);
        }
    }
    Ok(Some(members))
}
