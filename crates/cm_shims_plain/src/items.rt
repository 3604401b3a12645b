//! Instances, imports and exports of files that may have shims, and of shims.

ghost use Rattle.std.specs.Prelude.{◌≡◌, ℕ, Ok, map, Option};
ghost use Rattle.cm_binary_grammar.specs.Faults.{Gives};
ghost use Rattle.cm_binary_grammar.specs.Reading.{Reads};
ghost use Rattle.cm_binary_model.specs.declared.instances.InlineExport.{InlineExport};
ghost use Rattle.cm_binary_forms.specs.Instances.{inline_export};
ghost use Rattle.cm_binary_forms.specs.Texts.{index};
ghost use Rattle.cm_binary_forms.specs.Types.{export_desc, type_bound};
ghost use Rattle.cm_shims_plain.specs.declared.parts.Argument.{Argument};
ghost use Rattle.cm_shims_plain.specs.declared.parts.ShimExport.{ShimExport};
ghost use Rattle.cm_shims_plain.specs.declared.parts.ShimImport.{ShimImport};
ghost use Rattle.cm_shims_plain.specs.declared.parts.WideImport.{WideImport};
ghost use Rattle.cm_shims_plain.specs.Items.{argument, ascribed, shim_export, shim_import};
ghost use Rattle.cm_shims_plain.specs.Items.{wide_desc, wide_import, wide_instance};
ghost use Rattle.cm_shims_plain.specs.Trees.{WideInstanceTree, wide_instance_tree};

use crate::codes::{InstanceForm, TypeEquality, WideDescForm};
use crate::parts::{Argument, ShimExport, ShimImport, WideDesc, WideImport, WideInstance};
use cm_binary_forms::{
    DeclaredDescForm, DecodeReason, NoDescription, OptionalForm, TypeBoundForm, read_extern_name,
    read_plain_name,
};
use cm_binary_grammar::{Cursor, Form, ReadError, read_vec};
use cm_binary_model::{InlineExport, InstanceExportSort};
use cm_types::{ExportDesc, TypeBound};
use std::alloc::Global;

/// Files that may have shims, and shims, as a place of forms.
pub(crate) struct Wide;

/// Reads an index, a count or a size.
#[inline(always)]
pub(crate) fn read_index(
    bytes: &mut Cursor<'_, DecodeReason>,
) -> Result<u32, ReadError<DecodeReason>>
    ensures read { Reads index (λ x. x) bytes.old bytes.new result }
    ensures end { bytes.new.end ≡ bytes.old.end }
{
    bytes.number(DecodeReason::BadNumber)
}

impl Form<DecodeReason, Wide> for InlineExport {
    ghost Tree = { InlineExport };

    ghost tree = { λ e. e };

    ghost grammar = { inline_export };

    #[tactic(auto, unfolding(cm_binary_forms::specs::Instances::inline_export))]
    fn read(
        alloc: Global,
        bytes: &mut Cursor<'_, DecodeReason>,
    ) -> Result<Self, ReadError<DecodeReason>> {
        let name = read_extern_name(alloc, bytes)?;
        let sort = bytes.code()?;
        let index = read_index(bytes)?;
        Ok(InlineExport { name, sort, index })
    }
}

impl Form<DecodeReason, Wide> for Argument {
    ghost Tree = { Argument };

    ghost tree = { λ a. a };

    ghost grammar = { argument };

    #[tactic(auto, unfolding(crate::specs::Items::argument))]
    fn read(
        alloc: Global,
        bytes: &mut Cursor<'_, DecodeReason>,
    ) -> Result<Self, ReadError<DecodeReason>> {
        let name = read_plain_name(alloc, bytes)?;
        let sort = bytes.code()?;
        let index = read_index(bytes)?;
        Ok(Argument { name, sort, index })
    }
}

impl Form<DecodeReason, Wide> for WideInstance {
    ghost Tree = { WideInstanceTree };

    ghost tree = { wide_instance_tree };

    ghost grammar = { wide_instance };

    #[tactic(auto, unfolding(crate::specs::Items::wide_instance, crate::specs::Items::wide_instance_of))]
    fn read(
        alloc: Global,
        bytes: &mut Cursor<'_, DecodeReason>,
    ) -> Result<Self, ReadError<DecodeReason>> {
        match bytes.code()? {
            InstanceForm::Instantiate => {
                let component = read_index(bytes)?;
                let args = read_vec::<_, Wide, _>(alloc, bytes, DecodeReason::BadNumber)?;
                Ok(WideInstance::Instantiate { component, args })
            }
            InstanceForm::Exports => {
                let exports = read_vec::<_, Wide, _>(alloc, bytes, DecodeReason::BadNumber)?;
                Ok(WideInstance::Exports(exports))
            }
        }
    }
}

/// Reads what an import of a file is.
#[tactic(auto, unfolding(crate::specs::Items::wide_desc, crate::specs::Items::wide_desc_of))]
fn read_wide_desc(bytes: &mut Cursor<'_, DecodeReason>) -> Result<WideDesc, ReadError<DecodeReason>>
    ensures read { Reads wide_desc (λ x. x) bytes.old bytes.new result }
    ensures end { bytes.new.end ≡ bytes.old.end }
{
    match bytes.code()? {
        WideDescForm::Func => Ok(WideDesc::Func(read_index(bytes)?)),
        WideDescForm::Type => {
            let TypeEquality::Equal = bytes.code()?;
            Ok(WideDesc::Type(read_index(bytes)?))
        }
        WideDescForm::Instance => Ok(WideDesc::Instance(read_index(bytes)?)),
    }
}

impl Form<DecodeReason, Wide> for WideImport {
    ghost Tree = { WideImport };

    ghost tree = { λ i. i };

    ghost grammar = { wide_import };

    #[tactic(auto, unfolding(crate::specs::Items::wide_import))]
    fn read(
        alloc: Global,
        bytes: &mut Cursor<'_, DecodeReason>,
    ) -> Result<Self, ReadError<DecodeReason>> {
        let name = read_extern_name(alloc, bytes)?;
        let desc = read_wide_desc(bytes)?;
        Ok(WideImport { name, desc })
    }
}

/// Reads how a type is bound.
#[tactic(auto, unfolding(cm_binary_forms::specs::Types::type_bound, cm_binary_forms::specs::Types::type_bound_of))]
fn read_type_bound(
    bytes: &mut Cursor<'_, DecodeReason>,
) -> Result<TypeBound, ReadError<DecodeReason>>
    ensures read { Reads type_bound (λ x. x) bytes.old bytes.new result }
    ensures end { bytes.new.end ≡ bytes.old.end }
{
    match bytes.code()? {
        TypeBoundForm::Equal => Ok(TypeBound::Equal(read_index(bytes)?)),
        TypeBoundForm::SubResource => Ok(TypeBound::SubResource),
    }
}

/// Reads what an import of a shim is.
#[tactic(auto, unfolding(cm_binary_forms::specs::Types::export_desc, cm_binary_forms::specs::Types::export_desc_of))]
fn read_shim_desc(
    bytes: &mut Cursor<'_, DecodeReason>,
) -> Result<ExportDesc, ReadError<DecodeReason>>
    ensures read { Reads export_desc (λ x. x) bytes.old bytes.new result }
    ensures end { bytes.new.end ≡ bytes.old.end }
{
    match bytes.code()? {
        DeclaredDescForm::Func => Ok(ExportDesc::Func(read_index(bytes)?)),
        DeclaredDescForm::Type => Ok(ExportDesc::Type(read_type_bound(bytes)?)),
    }
}

impl Form<DecodeReason, Wide> for ShimImport {
    ghost Tree = { ShimImport };

    ghost tree = { λ i. i };

    ghost grammar = { shim_import };

    #[tactic(auto, unfolding(crate::specs::Items::shim_import))]
    fn read(
        alloc: Global,
        bytes: &mut Cursor<'_, DecodeReason>,
    ) -> Result<Self, ReadError<DecodeReason>> {
        let name = read_extern_name(alloc, bytes)?;
        let desc = read_shim_desc(bytes)?;
        Ok(ShimImport { name, desc })
    }
}

/// Reads the type that is ascribed to a function, if one is.
#[tactic(auto, unfolding(crate::specs::Items::ascribed, crate::specs::Items::ascribed_of))]
fn read_ascribed(
    bytes: &mut Cursor<'_, DecodeReason>,
    sort: InstanceExportSort,
) -> Result<Option<u32>, ReadError<DecodeReason>>
    ensures read { Reads (ascribed sort) (λ x. x) bytes.old bytes.new result }
    ensures end { bytes.new.end ≡ bytes.old.end }
{
    match sort {
        InstanceExportSort::Func => match bytes.code()? {
            OptionalForm::Absent => Ok(None),
            OptionalForm::Present => {
                bytes.byte(0x01, DecodeReason::UnknownCode)?;
                Ok(Some(read_index(bytes)?))
            }
        },
        InstanceExportSort::Type => {
            let NoDescription::Absent = bytes.code()?;
            Ok(None)
        }
    }
}

impl Form<DecodeReason, Wide> for ShimExport {
    ghost Tree = { ShimExport };

    ghost tree = { λ e. e };

    ghost grammar = { shim_export };

    #[tactic(auto, unfolding(crate::specs::Items::shim_export))]
    fn read(
        alloc: Global,
        bytes: &mut Cursor<'_, DecodeReason>,
    ) -> Result<Self, ReadError<DecodeReason>> {
        let name = read_extern_name(alloc, bytes)?;
        let sort = bytes.code()?;
        let index = read_index(bytes)?;
        let ascribed = read_ascribed(bytes, sort)?;
        Ok(ShimExport {
            name,
            sort,
            index,
            ascribed,
        })
    }
}
