//! What the types of instances declare.

ghost use Rattle.std.specs.Prelude.{◌≡◌, Ok};
ghost use Rattle.cm_binary_grammar.specs.Faults.{Gives, Fails};
ghost use Rattle.cm_binary_grammar.specs.Grammar.{refuse};
ghost use Rattle.cm_binary_grammar.specs.Reading.{Reads};
ghost use Rattle.cm_types.specs.DefTypes.{declared_type_tree, DeclarationTree, declaration_tree};
ghost use Rattle.cm_binary_model.specs.Limits.{types_in_declaration};
ghost use Rattle.cm_binary_forms.specs.Codes.{no_alias_target};
ghost use Rattle.cm_binary_forms.specs.Types.{declared_type, declared_type_from, declared_alias};
ghost use Rattle.cm_binary_forms.specs.Types.{type_bound, export_desc, export_decl, declaration};

use crate::aliases::read_outer_type;
use crate::indices::read_index;
use crate::types::{Types, read_def_val_type, read_func_type};
use crate::{
    AliasSort, DeclarationForm, DeclaredDescForm, DeclaredTypeForm, DecodeReason, OuterTypeTarget,
    TypeBoundForm, no_alias_target, read_extern_name,
};
use cm_binary_grammar::{Cursor, ReadError, StockedForm};
use cm_binary_model::{CoreSort, types_in_declaration};
use cm_types::{Declaration, DeclaredType, ExportDecl, ExportDesc, OuterType, TypeBound};
use std::alloc::Global;

impl StockedForm<DecodeReason, Types> for Declaration {
    ghost Tree = { DeclarationTree };

    ghost tree = { declaration_tree };

    ghost grammar = { declaration };

    ghost cost = { types_in_declaration };

    #[tactic(auto, unfolding(crate::specs::Types::declaration, crate::specs::Types::declaration_of))]
    fn read(
        alloc: Global,
        bytes: &mut Cursor<'_, DecodeReason>,
        stock: usize,
    ) -> Result<Self, ReadError<DecodeReason>> {
        match bytes.code()? {
            DeclarationForm::Type => {
                Ok(Declaration::Type(read_declared_type_from(alloc, bytes, stock)?))
            }
            DeclarationForm::Alias => Ok(Declaration::OuterType(read_declared_alias(bytes)?)),
            DeclarationForm::Export => Ok(Declaration::Export(read_export_decl(alloc, bytes)?)),
        }
    }

    fn rest_of(&self, stock: usize) -> usize {
        stock.saturating_sub(types_in_declaration(self) as usize)
    }
}

/// Reads a type in the type of an instance, where so many may stand.
#[tactic(auto, unfolding(crate::specs::Types::declared_type_from))]
fn read_declared_type_from(
    alloc: Global,
    bytes: &mut Cursor<'_, DecodeReason>,
    stock: usize,
) -> Result<DeclaredType, ReadError<DecodeReason>>
    ensures read { Reads (declared_type_from stock) declared_type_tree
        bytes.old bytes.new result }
    ensures end { bytes.new.end ≡ bytes.old.end }
{
    if stock == 0 {
        return Err(bytes.fault(DecodeReason::TooMany));
    }
    read_declared_type(alloc, bytes)
}

/// Reads a type in the type of an instance.
#[tactic(auto, unfolding(crate::specs::Types::declared_type, crate::specs::Types::declared_type_of))]
fn read_declared_type(
    alloc: Global,
    bytes: &mut Cursor<'_, DecodeReason>,
) -> Result<DeclaredType, ReadError<DecodeReason>>
    ensures read { Reads declared_type declared_type_tree bytes.old bytes.new result }
    ensures end { bytes.new.end ≡ bytes.old.end }
{
    match bytes.code()? {
        DeclaredTypeForm::Value(form) => {
            Ok(DeclaredType::Value(read_def_val_type(alloc, bytes, form)?))
        }
        DeclaredTypeForm::Func => Ok(DeclaredType::Func(read_func_type(alloc, bytes)?)),
    }
}

/// Reads an alias in the type of an instance.
#[tactic(auto, unfolding(crate::specs::Types::declared_alias, crate::specs::Types::declared_alias_of))]
fn read_declared_alias(
    bytes: &mut Cursor<'_, DecodeReason>,
) -> Result<OuterType, ReadError<DecodeReason>>
    ensures read { Reads declared_alias (λ x. x) bytes.old bytes.new result }
    ensures end { bytes.new.end ≡ bytes.old.end }
{
    match bytes.code()? {
        AliasSort::Core => {
            let _sort: CoreSort = bytes.code()?;
            refuse_target(bytes)
        }
        AliasSort::Func | AliasSort::Instance => refuse_target(bytes),
        AliasSort::Type => {
            let OuterTypeTarget::OuterType = bytes.code()?;
            read_outer_type(bytes)
        }
    }
}

/// Refuses the target of an alias whose sort has none in the type of an instance.
fn refuse_target(bytes: &mut Cursor<'_, DecodeReason>) -> Result<OuterType, ReadError<DecodeReason>>
    ensures read { Reads (refuse no_alias_target) (λ x. x) bytes.old bytes.new result }
    ensures end { bytes.new.end ≡ bytes.old.end }
{
    match bytes.rest {
        [] => Err(bytes.want()),
        [byte, ..] => Err(bytes.fault(no_alias_target(*byte))),
    }
}

/// Reads what the instances of a type export, with its name.
#[tactic(auto, unfolding(crate::specs::Types::export_decl))]
fn read_export_decl(
    alloc: Global,
    bytes: &mut Cursor<'_, DecodeReason>,
) -> Result<ExportDecl, ReadError<DecodeReason>>
    ensures read { Reads export_decl (λ x. x) bytes.old bytes.new result }
    ensures end { bytes.new.end ≡ bytes.old.end }
{
    let name = read_extern_name(alloc, bytes)?;
    let desc = read_export_desc(bytes)?;
    Ok(ExportDecl { name, desc })
}

/// Reads what the instances of a type export.
#[tactic(auto, unfolding(crate::specs::Types::export_desc, crate::specs::Types::export_desc_of))]
fn read_export_desc(
    bytes: &mut Cursor<'_, DecodeReason>,
) -> Result<ExportDesc, ReadError<DecodeReason>>
    ensures read { Reads export_desc (λ x. x) bytes.old bytes.new result }
    ensures end { bytes.new.end ≡ bytes.old.end }
{
    match bytes.code()? {
        DeclaredDescForm::Func => Ok(ExportDesc::Func(read_index(bytes)?)),
        DeclaredDescForm::Type => Ok(ExportDesc::Type(read_type_bound(bytes)?)),
    }
}

/// Reads what is known of a type.
#[tactic(auto, unfolding(crate::specs::Types::type_bound, crate::specs::Types::type_bound_of))]
fn read_type_bound(
    bytes: &mut Cursor<'_, DecodeReason>,
) -> Result<TypeBound, ReadError<DecodeReason>>
    ensures read { Reads type_bound (λ x. x) bytes.old bytes.new result }
    ensures end { bytes.new.end ≡ bytes.old.end }
{
    match bytes.code()? {
        TypeBoundForm::Equal => Ok(TypeBound::Equal(read_index(bytes)?)),
        TypeBoundForm::SubResource => Ok(TypeBound::SubResource),
    }
}
