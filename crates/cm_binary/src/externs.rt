//! Imports and exports.

ghost use Rattle.std.specs.Prelude.{◌≡◌, ◌++◌, OnOk};
ghost use Rattle.cm_binary_model.specs.Spelling.{extern_name_spelling, desc_spelling};
ghost use Rattle.cm_binary_model.specs.Spelling.{export_sort_code};

use crate::written::Written;
use cm_binary_grammar::write_blob;
use cm_binary_model::{Export, ExportSort, ExternDesc, Import};
use cm_leb::write_u32;
use cm_types::ExternName;
use std::alloc::AllocError;

/// Appends an extern name.
pub(crate) fn write_extern_name(out: &mut Vec<u8>, name: &ExternName) -> Result<(), AllocError>
    ensures { OnOk result (out.new.items ≡ out.old.items ++ extern_name_spelling name.now) }
{
    out.push(0x00)?;
    write_blob(out, name.as_bytes())
}

/// Appends the type of an import.
fn write_desc(out: &mut Vec<u8>, desc: ExternDesc) -> Result<(), AllocError>
    ensures { OnOk result (out.new.items ≡ out.old.items ++ desc_spelling desc) }
{
    match desc {
        ExternDesc::Func(ty) => {
            out.push(0x01)?;
            write_u32(out, ty)
        }
        ExternDesc::Instance(ty) => {
            out.push(0x05)?;
            write_u32(out, ty)
        }
    }
}

/// The code of a sort that a component exports.
fn export_sort_code(sort: ExportSort) -> u8
    ensures { result ≡ export_sort_code sort }
{
    match sort {
        ExportSort::Func => 0x01,
        ExportSort::Instance => 0x05,
    }
}

impl Written for Import {
    fn write(&self, out: &mut Vec<u8>) -> Result<(), AllocError> {
        write_extern_name(out, &self.name)?;
        write_desc(out, self.desc)
    }
}

impl Written for Export {
    fn write(&self, out: &mut Vec<u8>) -> Result<(), AllocError> {
        write_extern_name(out, &self.name)?;
        out.push(export_sort_code(self.sort))?;
        write_u32(out, self.index)?;
        out.push(0x00)?;
        Ok(())
    }
}
