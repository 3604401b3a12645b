//! The functions that a component exports.

ghost use Rattle.std.specs.Prelude.{◌≡◌, ℕ, IfSome, List, None, Some, true};
ghost use Rattle.std.specs.Option.{option_and_then, option_map};
ghost use Rattle.cm_types.specs.Types.{FuncTy, Ty};
ghost use Rattle.cm_validate_model.specs.Spaces.{func_of_member, member_named};
ghost use Rattle.cm_validate_spaces.specs.cm_validate_entries.ComponentSpaces.{exported_def};
ghost use Rattle.cm_validate_spaces.specs.cm_validate_entries.ComponentSpaces.{is_exported_there};
ghost use Rattle.cm_validate_spaces.specs.cm_validate_entries.Entries.{are_members_there, func_def};
ghost use Rattle.cm_validate_spaces.specs.cm_validate_entries.Entries.{is_func_there};
ghost use Rattle.cm_validate_spaces.specs.cm_validate_entries.Entries.{is_member_there, member_def};
ghost use Rattle.cm_validate_spaces.specs.cm_validate_entries.Entries.{members_of};
ghost use Rattle.cm_validate_spaces.specs.Exported.{func_under};

use crate::{ExportedEntry, FuncEntry, InstanceEntry, MemberEntry};

/// The function that a member is, if it is one.
fn member_func<'a>(member: MemberEntry<'a>) -> Option<FuncEntry<'a>>
    ensures is { (types : List Ty) (funcs : List FuncTy) → option_map (func_def funcs) result
        ≡ func_of_member (member_def types funcs member.entry) }
    ensures there { (types funcs : ℕ) → is_member_there types funcs member.entry ≡ true
        → IfSome result (λ f. is_func_there funcs f ≡ true) }
{
    match member {
        MemberEntry::Func(func) => Some(func),
        MemberEntry::Value(_) | MemberEntry::Resource(_) => None,
    }
}

/// The function that an instance has under a name, if it has one.
fn func_named<'a>(instance: &InstanceEntry<'a>, name: &str) -> Option<FuncEntry<'a>>
    ensures is { (types : List Ty) (funcs : List FuncTy) → option_map (func_def funcs) result
        ≡ option_and_then func_of_member
        (member_named (members_of types funcs instance.now) name.now) }
    ensures there { (types funcs : ℕ) → are_members_there types funcs instance.now ≡ true
        → IfSome result (λ f. is_func_there funcs f ≡ true) }
{
    member_func(instance.member(name)?)
}

/// The function that an export is.
fn own_func<'a>(export: &ExportedEntry<'a>) -> Option<FuncEntry<'a>>
    ensures is { (types : List Ty) (funcs : List FuncTy) → option_map (func_def funcs) result
        ≡ func_under None (exported_def types funcs export.now) }
    ensures there { (types funcs : ℕ) → is_exported_there types funcs export.now ≡ true
        → IfSome result (λ f. is_func_there funcs f ≡ true) }
{
    match export {
        ExportedEntry::Func(func) => Some(*func),
        ExportedEntry::Instance(_) => None,
    }
}

/// The function that an export has under a name, where it is an instance.
fn func_in<'a>(export: &ExportedEntry<'a>, name: &str) -> Option<FuncEntry<'a>>
    ensures is { (types : List Ty) (funcs : List FuncTy) → option_map (func_def funcs) result
        ≡ func_under (Some name.now) (exported_def types funcs export.now) }
    ensures there { (types funcs : ℕ) → is_exported_there types funcs export.now ≡ true
        → IfSome result (λ f. is_func_there funcs f ≡ true) }
{
    match export {
        ExportedEntry::Func(_) => None,
        ExportedEntry::Instance(instance) => func_named(instance, name),
    }
}

/// The function that an export is, or that it has under a name.
pub(crate) fn func_under<'a>(
    export: &ExportedEntry<'a>,
    item: Option<&str>,
) -> Option<FuncEntry<'a>>
    ensures is { (types : List Ty) (funcs : List FuncTy) → option_map (func_def funcs) result
        ≡ func_under (option_map (λ n. n.now) item.entry) (exported_def types funcs export.now) }
    ensures there { (types funcs : ℕ) → is_exported_there types funcs export.now ≡ true
        → IfSome result (λ f. is_func_there funcs f ≡ true) }
{
    match item {
        None => own_func(export),
        Some(name) => func_in(export, name),
    }
}
