//! What a script has to know of a core function.

ghost use Rattle.std.specs.Prelude.{◌≡◌, IfOk};
ghost use Rattle.std.specs.Option.{option_map};
ghost use Rattle.cm_validate_functions.specs.CoreTypes.{core_type, core_type_of};
ghost use Rattle.cm_validate_functions.specs.Functions.{spaces_of};
ghost use Rattle.cm_validate_functions.specs.Used.{memory_of, string_encoding_of};

use cm_validate_functions::{CoreFuncType, Described, Functions, StringEncoding};
use std::alloc::{AllocError, Global};
use std::fmt;

/// What a script has to know of a core function: its number, the core values that it takes and
/// answers, the memory in which it passes values, how strings are encoded there, and what it is and
/// is used for.
///
/// It is shown as these five, with a tab between them and `-` for what the component does not say.
#[derive(Drop)]
pub struct CoreRow<'f, 'b, 'a> {
    pub index: u32,
    pub kinds: Option<CoreFuncType>,
    pub memory: Option<u32>,
    pub encoding: Option<StringEncoding>,
    pub described: Option<Described<'f, 'b, 'a>>,
}

/// What a script has to know of the core function of an index. `AllocError` comes where there is no
/// memory.
pub fn core_row<'f, 'b, 'a>(
    alloc: Global,
    functions: &'f Functions<'b, 'a>,
    index: u32,
) -> Result<CoreRow<'f, 'b, 'a>, AllocError>
    ensures index { IfOk result (λ r. r.index ≡ index) }
    ensures kinds { IfOk result (λ r. option_map core_type_of r.kinds
        ≡ core_type (spaces_of functions.now) index) }
    ensures memory { IfOk result (λ r. r.memory ≡ memory_of (spaces_of functions.now) index) }
    ensures encoding { IfOk result (λ r. r.encoding
        ≡ string_encoding_of (spaces_of functions.now) index) }
{
    let kinds = functions.kinds(alloc, index)?;
    Ok(CoreRow {
        index,
        kinds,
        memory: functions.memory(index),
        encoding: functions.encoding(index),
        described: functions.describe(index),
    })
}

/// The name of an encoding, as the text format of components has it.
pub(crate) fn encoding_name(encoding: StringEncoding) -> &'static str {
    match encoding {
        StringEncoding::Utf8 => "utf8",
        StringEncoding::Utf16 => "utf16",
        StringEncoding::Latin1OrUtf16 => "latin1+utf16",
    }
}

impl fmt::Display for CoreRow<'_, '_, '_> {
    fn fmt<W: fmt::Write>(&self, f: &mut fmt::Formatter<W>) -> fmt::Result {
        write!(f, "{}\t", self.index)?;
        match &self.kinds {
            Some(kinds) => write!(f, "{kinds}\t")?,
            None => f.write_str("-\t")?,
        }
        match self.memory {
            Some(memory) => write!(f, "memory {memory}\t")?,
            None => f.write_str("-\t")?,
        }
        f.write_str(match self.encoding {
            Some(encoding) => encoding_name(encoding),
            None => "-",
        })?;
        match &self.described {
            Some(described) => write!(f, "\t{described}"),
            None => f.write_str("\t-"),
        }
    }
}
