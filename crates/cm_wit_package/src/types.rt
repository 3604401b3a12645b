//! Types.

ghost use Rattle.std.specs.Prelude.{◌≡◌, OnOk, map};
ghost use Rattle.cm_wit_reading.specs.Types.{types_from};
ghost use Rattle.cm_wit_reading.specs.TypeViews.{type_tree};
ghost use Rattle.cm_wit_package.specs.Appends.{Appends};
ghost use Rattle.cm_wit_package.specs.Printed.{primitive_text, separator, type_text};
ghost use Rattle.cm_wit_package.specs.Printed.{types_text};

use crate::names::print_name;
use cm_wit_reading::{Primitive, WitType};
use std::alloc::AllocError;
use std::fmt::Write;

fn primitive_text(primitive: Primitive) -> &'static str
    ensures { result.now ≡ primitive_text primitive }
{
    match primitive {
        Primitive::Bool => "bool",
        Primitive::S8 => "s8",
        Primitive::S16 => "s16",
        Primitive::S32 => "s32",
        Primitive::S64 => "s64",
        Primitive::U8 => "u8",
        Primitive::U16 => "u16",
        Primitive::U32 => "u32",
        Primitive::U64 => "u64",
        Primitive::Char => "char",
        Primitive::String => "string",
    }
}

/// Adds what stands before the n-th of some things, from 0.
#[tactic(auto, using(crate::proofs::PrintLaws::separator_laws))]
fn print_separator(out: &mut String, number: usize) -> Result<(), AllocError>
    ensures { OnOk result (Appends (separator number) out.old out.new) }
{
    if number == 0 {
        return Ok(());
    }
    out.push_str(", ")
}

/// Adds a type.
#[cycle(types)]
#[tactic(auto, using(crate::proofs::PrintLaws::print_laws))]
pub fn print_type(out: &mut String, ty: &WitType) -> Result<(), AllocError>
    ensures { OnOk result (Appends (type_text (type_tree ty.now)) out.old out.new) }
{
    match ty {
        WitType::Primitive(primitive) => out.push_str(primitive_text(*primitive)),
        WitType::Named(name) => print_name(out, name),
        WitType::Borrow(name) => {
            out.push_str("borrow<")?;
            print_name(out, name)?;
            out.push_str(">")
        }
        WitType::List(element) => {
            out.push_str("list<")?;
            print_type(out, element)?;
            out.push_str(">")
        }
        WitType::FixedList { element, length } => {
            out.push_str("list<")?;
            print_type(out, element)?;
            out.push_str(", ")?;
            write!(out, "{length}")?;
            out.push_str(">")
        }
        WitType::Option(payload) => {
            out.push_str("option<")?;
            print_type(out, payload)?;
            out.push_str(">")
        }
        WitType::Tuple(types) => {
            out.push_str("tuple<")?;
            print_types(out, types)?;
            out.push_str(">")
        }
        WitType::Result { ok, error } => match (ok, error) {
            (None, None) => out.push_str("result"),
            (Some(ok), None) => {
                out.push_str("result<")?;
                print_type(out, ok)?;
                out.push_str(">")
            }
            (None, Some(error)) => {
                out.push_str("result<_, ")?;
                print_type(out, error)?;
                out.push_str(">")
            }
            (Some(ok), Some(error)) => {
                out.push_str("result<")?;
                print_type(out, ok)?;
                out.push_str(", ")?;
                print_type(out, error)?;
                out.push_str(">")
            }
        },
    }
}

#[cycle(types)]
#[tactic(auto, using(crate::proofs::PrintLaws::type_laws))]
fn print_types(out: &mut String, types: &[WitType]) -> Result<(), AllocError>
    ensures { OnOk result
        (Appends (types_text (types_from (map type_tree types.now))) out.old out.new) }
{
    for (index, ty) in types.iter().enumerate() {
        print_separator(out, index)?;
        print_type(out, ty)?;
    }
    Ok(())
}
