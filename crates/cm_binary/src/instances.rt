//! Core instances and instances.

ghost use Rattle.std.specs.Prelude.{◌≡◌};
ghost use Rattle.cm_binary_model.specs.Spelling.{core_sort_code, instance_sort_code};

use crate::externs::write_extern_name;
use crate::written::{Written, write_vec};
use cm_binary_grammar::write_blob;
use cm_binary_model::{
    CoreInlineExport, CoreInstance, CoreInstantiationArg, CoreSort, InlineExport, Instance,
    InstanceExportSort,
};
use cm_leb::write_u32;
use std::alloc::AllocError;

impl Written for CoreInstantiationArg {
    fn write(&self, out: &mut Vec<u8>) -> Result<(), AllocError> {
        write_blob(out, self.name.as_bytes())?;
        out.push(0x12)?;
        write_u32(out, self.instance)
    }
}

impl Written for CoreInlineExport {
    fn write(&self, out: &mut Vec<u8>) -> Result<(), AllocError> {
        write_blob(out, self.name.as_bytes())?;
        out.push(core_sort_code(self.sort))?;
        write_u32(out, self.index)
    }
}

impl Written for CoreInstance {
    fn write(&self, out: &mut Vec<u8>) -> Result<(), AllocError> {
        match self {
            CoreInstance::Instantiate { module, args } => {
                out.push(0x00)?;
                write_u32(out, *module)?;
                write_vec(out, args)
            }
            CoreInstance::Exports(exports) => {
                out.push(0x01)?;
                write_vec(out, exports)
            }
        }
    }
}

impl Written for InlineExport {
    fn write(&self, out: &mut Vec<u8>) -> Result<(), AllocError> {
        write_extern_name(out, &self.name)?;
        out.push(instance_sort_code(self.sort))?;
        write_u32(out, self.index)
    }
}

impl Written for Instance {
    fn write(&self, out: &mut Vec<u8>) -> Result<(), AllocError> {
        out.push(0x01)?;
        write_vec(out, &self.exports)
    }
}

/// The code of a core sort.
pub(crate) fn core_sort_code(sort: CoreSort) -> u8
    ensures { result ≡ core_sort_code sort }
{
    match sort {
        CoreSort::Func => 0x00,
        CoreSort::Table => 0x01,
        CoreSort::Memory => 0x02,
        CoreSort::Global => 0x03,
    }
}

/// The code of a sort that an instance exports.
pub(crate) fn instance_sort_code(sort: InstanceExportSort) -> u8
    ensures { result ≡ instance_sort_code sort }
{
    match sort {
        InstanceExportSort::Func => 0x01,
        InstanceExportSort::Type => 0x03,
    }
}
