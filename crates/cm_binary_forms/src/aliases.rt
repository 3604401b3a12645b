//! Aliases.

ghost use Rattle.std.specs.Prelude.{◌≡◌, Ok, Err};
ghost use Rattle.cm_binary_grammar.specs.Faults.{Gives, Fails};
ghost use Rattle.cm_binary_grammar.specs.Reading.{Reads};
ghost use Rattle.cm_binary_model.specs.Trees.{AliasTree, alias_tree};
ghost use Rattle.cm_binary_forms.specs.Codes.{no_alias_target};
ghost use Rattle.cm_binary_forms.specs.declared.codes.AliasSort.TheVariants as alias_sorts;
ghost use Rattle.cm_binary_forms.specs.Aliases.{outer_type, instance_export};
ghost use Rattle.cm_binary_forms.specs.Aliases.{type_alias_of, alias_of, alias};

use crate::indices::read_index;
use crate::types::Types;
use crate::{
    AliasSort, CoreAliasTarget, DecodeReason, FuncAliasTarget, TypeAliasTarget, no_alias_target,
    read_plain_name, read_text,
};
use cm_binary_grammar::{Cursor, Form, ReadError};
use cm_binary_model::{Alias, InstanceExportSort};
use cm_types::OuterType;
use std::alloc::Global;

impl Form<DecodeReason, Types> for Alias {
    ghost Tree = { AliasTree };

    ghost tree = { alias_tree };

    ghost grammar = { alias };

    #[tactic(auto, unfolding(crate::specs::Aliases::alias))]
    fn read(
        alloc: Global,
        bytes: &mut Cursor<'_, DecodeReason>,
    ) -> Result<Self, ReadError<DecodeReason>> {
        match bytes.code()? {
            AliasSort::Core => read_core_alias(alloc, bytes),
            AliasSort::Func => read_func_alias(alloc, bytes),
            AliasSort::Type => read_type_alias(alloc, bytes),
            AliasSort::Instance => Err(target_fault(bytes)),
        }
    }
}

/// Reads an alias of a core definition, behind its sort.
#[tactic(auto, unfolding(crate::specs::Aliases::alias_of))]
fn read_core_alias(
    alloc: Global,
    bytes: &mut Cursor<'_, DecodeReason>,
) -> Result<Alias, ReadError<DecodeReason>>
    ensures read { Reads (alias_of alias_sorts.Core) alias_tree bytes.old bytes.new result }
    ensures end { bytes.new.end ≡ bytes.old.end }
{
    let sort = bytes.code()?;
    let CoreAliasTarget::CoreInstanceExport = bytes.code()?;
    let instance = read_index(bytes)?;
    let name = read_text(alloc, bytes)?;
    Ok(Alias::CoreInstanceExport {
        sort,
        instance,
        name,
    })
}

/// Reads an alias of a function, behind its sort.
#[tactic(auto, unfolding(crate::specs::Aliases::alias_of))]
fn read_func_alias(
    alloc: Global,
    bytes: &mut Cursor<'_, DecodeReason>,
) -> Result<Alias, ReadError<DecodeReason>>
    ensures read { Reads (alias_of alias_sorts.Func) alias_tree bytes.old bytes.new result }
    ensures end { bytes.new.end ≡ bytes.old.end }
{
    let FuncAliasTarget::InstanceExport = bytes.code()?;
    read_instance_export(alloc, bytes, InstanceExportSort::Func)
}

/// Reads an alias of a type, behind its sort.
#[tactic(auto, unfolding(crate::specs::Aliases::alias_of, crate::specs::Aliases::type_alias_of))]
fn read_type_alias(
    alloc: Global,
    bytes: &mut Cursor<'_, DecodeReason>,
) -> Result<Alias, ReadError<DecodeReason>>
    ensures read { Reads (alias_of alias_sorts.Type) alias_tree bytes.old bytes.new result }
    ensures end { bytes.new.end ≡ bytes.old.end }
{
    match bytes.code()? {
        TypeAliasTarget::InstanceExport => {
            read_instance_export(alloc, bytes, InstanceExportSort::Type)
        }
        TypeAliasTarget::OuterType => Ok(Alias::OuterType(read_outer_type(bytes)?)),
    }
}

/// Reads what an instance exports, behind the codes of its alias.
#[tactic(auto, unfolding(crate::specs::Aliases::instance_export))]
fn read_instance_export(
    alloc: Global,
    bytes: &mut Cursor<'_, DecodeReason>,
    sort: InstanceExportSort,
) -> Result<Alias, ReadError<DecodeReason>>
    ensures read { Reads (instance_export sort) alias_tree bytes.old bytes.new result }
    ensures end { bytes.new.end ≡ bytes.old.end }
{
    let instance = read_index(bytes)?;
    let name = read_plain_name(alloc, bytes)?;
    Ok(Alias::InstanceExport {
        sort,
        instance,
        name,
    })
}

/// Reads a type of a component around, behind the codes of its alias.
#[tactic(auto, unfolding(crate::specs::Aliases::outer_type))]
pub(crate) fn read_outer_type(
    bytes: &mut Cursor<'_, DecodeReason>,
) -> Result<OuterType, ReadError<DecodeReason>>
    ensures read { Reads outer_type (λ o. o) bytes.old bytes.new result }
    ensures end { bytes.new.end ≡ bytes.old.end }
{
    let count = read_index(bytes)?;
    let index = read_index(bytes)?;
    Ok(OuterType { count, index })
}

/// The fault of an alias of an instance, behind its sort.
#[tactic(auto, unfolding(crate::specs::Aliases::alias_of))]
fn target_fault(bytes: &Cursor<'_, DecodeReason>) -> ReadError<DecodeReason>
    ensures { Fails result
        ((alias_of alias_sorts.Instance).reads bytes.now.end bytes.now.rest.now) }
{
    match bytes.rest {
        [] => bytes.want(),
        [byte, ..] => bytes.fault(no_alias_target(*byte)),
    }
}
