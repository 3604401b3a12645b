//! Imports and exports.

ghost use Rattle.std.specs.Prelude.{◌≡◌, Ok};
ghost use Rattle.cm_binary_grammar.specs.Faults.{Gives};
ghost use Rattle.cm_binary_grammar.specs.Reading.{Reads};
ghost use Rattle.cm_binary_model.specs.declared.externs.Import.{Import};
ghost use Rattle.cm_binary_model.specs.declared.externs.Export.{Export};
ghost use Rattle.cm_binary_forms.specs.Externs.{extern_desc, extern_desc_of, import_item};
ghost use Rattle.cm_binary_forms.specs.Externs.{export_item};

use crate::indices::read_index;
use crate::sections::Items;
use crate::{DecodeReason, DescForm, NoDescription, read_extern_name};
use cm_binary_grammar::{Cursor, Form, ReadError};
use cm_binary_model::{Export, ExternDesc, Import};
use std::alloc::Global;

impl Form<DecodeReason, Items> for Import {
    ghost Tree = { Import };

    ghost tree = { λ i. i };

    ghost grammar = { import_item };

    #[tactic(auto, unfolding(crate::specs::Externs::import_item))]
    fn read(
        alloc: Global,
        bytes: &mut Cursor<'_, DecodeReason>,
    ) -> Result<Self, ReadError<DecodeReason>> {
        let name = read_extern_name(alloc, bytes)?;
        let desc = read_desc(bytes)?;
        Ok(Import { name, desc })
    }
}

/// Reads the type of an import.
#[tactic(auto, unfolding(crate::specs::Externs::extern_desc, crate::specs::Externs::extern_desc_of))]
fn read_desc(bytes: &mut Cursor<'_, DecodeReason>) -> Result<ExternDesc, ReadError<DecodeReason>>
    ensures read { Reads extern_desc (λ x. x) bytes.old bytes.new result }
    ensures end { bytes.new.end ≡ bytes.old.end }
{
    match bytes.code()? {
        DescForm::Func => Ok(ExternDesc::Func(read_index(bytes)?)),
        DescForm::Instance => Ok(ExternDesc::Instance(read_index(bytes)?)),
    }
}

impl Form<DecodeReason, Items> for Export {
    ghost Tree = { Export };

    ghost tree = { λ e. e };

    ghost grammar = { export_item };

    #[tactic(auto, unfolding(crate::specs::Externs::export_item))]
    fn read(
        alloc: Global,
        bytes: &mut Cursor<'_, DecodeReason>,
    ) -> Result<Self, ReadError<DecodeReason>> {
        let name = read_extern_name(alloc, bytes)?;
        let sort = bytes.code()?;
        let index = read_index(bytes)?;
        let NoDescription::Absent = bytes.code()?;
        Ok(Export { name, sort, index })
    }
}
