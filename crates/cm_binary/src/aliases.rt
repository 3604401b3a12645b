//! Aliases.

ghost use Rattle.std.specs.Prelude.{◌≡◌, ◌++◌, OnOk};
ghost use Rattle.cm_binary_model.specs.Spelling.{outer_type_spelling};

use crate::instances::{core_sort_code, instance_sort_code};
use crate::written::Written;
use cm_binary_grammar::write_blob;
use cm_binary_model::Alias;
use cm_leb::write_u32;
use cm_types::OuterType;
use std::alloc::AllocError;

impl Written for Alias {
    fn write(&self, out: &mut Vec<u8>) -> Result<(), AllocError> {
        match self {
            Alias::InstanceExport {
                sort,
                instance,
                name,
            } => {
                out.extend_from_slice(&[instance_sort_code(*sort), 0x00])?;
                write_u32(out, *instance)?;
                write_blob(out, name.as_bytes())
            }
            Alias::CoreInstanceExport {
                sort,
                instance,
                name,
            } => {
                out.extend_from_slice(&[0x00, core_sort_code(*sort), 0x01])?;
                write_u32(out, *instance)?;
                write_blob(out, name.as_bytes())
            }
            Alias::OuterType(outer) => {
                out.extend_from_slice(&[0x03, 0x02])?;
                write_outer_type(out, *outer)
            }
        }
    }
}

/// Appends a type of a component around, behind the codes of its alias.
pub(crate) fn write_outer_type(out: &mut Vec<u8>, outer: OuterType) -> Result<(), AllocError>
    ensures { OnOk result (out.new.items ≡ out.old.items ++ outer_type_spelling outer) }
{
    write_u32(out, outer.count)?;
    write_u32(out, outer.index)
}
