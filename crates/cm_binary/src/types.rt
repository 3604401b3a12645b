//! Types.

ghost use Rattle.std.specs.Prelude.{◌≡◌, ◌++◌, OnOk};
ghost use Rattle.cm_leb.specs.NumbersWritten.{shortest_unsigned};
ghost use Rattle.cm_types.specs.DefTypes.{def_val_type_tree, func_type_tree};
ghost use Rattle.cm_types.specs.DefTypes.{declared_type_tree};
ghost use Rattle.cm_binary_model.specs.Spelling.{optional_spelling, prim_val_type_code};
ghost use Rattle.cm_binary_model.specs.Spelling.{val_type_spelling, def_val_type_code};
ghost use Rattle.cm_binary_model.specs.Spelling.{def_val_type_parts};
ghost use Rattle.cm_binary_model.specs.Spelling.{result_spelling, func_spelling};
ghost use Rattle.cm_binary_model.specs.Spelling.{declared_type_spelling, export_desc_spelling};

use crate::aliases::write_outer_type;
use crate::externs::write_extern_name;
use crate::written::{Written, write_vec};
use cm_binary_grammar::write_blob;
use cm_leb::formats::write_index;
use cm_leb::write_u32;
use cm_types::{
    CaseType, Declaration, DeclaredType, DefType, DefValType, ExportDesc, FuncType, Label,
    LabeledValType, PrimValType, TypeBound, ValType,
};
use std::alloc::AllocError;

impl Written for Label {
    fn write(&self, out: &mut Vec<u8>) -> Result<(), AllocError> {
        write_blob(out, self.as_bytes())
    }
}

impl Written for ValType {
    fn write(&self, out: &mut Vec<u8>) -> Result<(), AllocError> {
        write_val_type(out, *self)
    }
}

impl Written for LabeledValType {
    fn write(&self, out: &mut Vec<u8>) -> Result<(), AllocError> {
        write_blob(out, self.label.as_bytes())?;
        write_val_type(out, self.ty)
    }
}

impl Written for CaseType {
    fn write(&self, out: &mut Vec<u8>) -> Result<(), AllocError> {
        write_blob(out, self.label.as_bytes())?;
        write_optional_val_type(out, self.payload)?;
        out.push(0x00)?;
        Ok(())
    }
}

impl Written for DefType {
    fn write(&self, out: &mut Vec<u8>) -> Result<(), AllocError> {
        match self {
            DefType::Value(value) => {
                out.push(def_val_type_code(value))?;
                write_def_val_type_parts(out, value)
            }
            DefType::Func(func) => {
                out.push(0x40)?;
                write_func_type(out, func)
            }
            DefType::Resource(destructor) => {
                out.extend_from_slice(&[0x3f, 0x7f])?;
                write_optional_index(out, *destructor)
            }
            DefType::Instance(declarations) => {
                out.push(0x42)?;
                write_vec(out, declarations)
            }
        }
    }
}

impl Written for Declaration {
    fn write(&self, out: &mut Vec<u8>) -> Result<(), AllocError> {
        match self {
            Declaration::Type(ty) => {
                out.push(0x01)?;
                write_declared_type(out, ty)
            }
            Declaration::OuterType(outer) => {
                out.extend_from_slice(&[0x02, 0x03, 0x02])?;
                write_outer_type(out, *outer)
            }
            Declaration::Export(export) => {
                out.push(0x04)?;
                write_extern_name(out, &export.name)?;
                write_export_desc(out, export.desc)
            }
        }
    }
}

/// Appends a type in the type of an instance.
fn write_declared_type(out: &mut Vec<u8>, ty: &DeclaredType) -> Result<(), AllocError>
    ensures { OnOk result
        (out.new.items ≡ out.old.items ++ declared_type_spelling (declared_type_tree ty.now)) }
{
    match ty {
        DeclaredType::Value(value) => {
            out.push(def_val_type_code(value))?;
            write_def_val_type_parts(out, value)
        }
        DeclaredType::Func(func) => {
            out.push(0x40)?;
            write_func_type(out, func)
        }
    }
}

/// Appends what the instances of a type export.
fn write_export_desc(out: &mut Vec<u8>, desc: ExportDesc) -> Result<(), AllocError>
    ensures { OnOk result (out.new.items ≡ out.old.items ++ export_desc_spelling desc) }
{
    match desc {
        ExportDesc::Func(ty) => {
            out.push(0x01)?;
            write_u32(out, ty)
        }
        ExportDesc::Type(TypeBound::Equal(ty)) => {
            out.extend_from_slice(&[0x03, 0x00])?;
            write_u32(out, ty)
        }
        ExportDesc::Type(TypeBound::SubResource) => out.extend_from_slice(&[0x03, 0x01]),
    }
}

/// Appends a value type that is defined, behind its code.
fn write_def_val_type_parts(out: &mut Vec<u8>, def: &DefValType) -> Result<(), AllocError>
    ensures { OnOk result
        (out.new.items ≡ out.old.items ++ def_val_type_parts (def_val_type_tree def.now)) }
{
    match def {
        DefValType::Primitive(_) => Ok(()),
        DefValType::Record(fields) => write_vec(out, fields),
        DefValType::Variant(cases) => write_vec(out, cases),
        DefValType::List(element) | DefValType::Option(element) => write_val_type(out, *element),
        DefValType::FixedList { element, length } => {
            write_val_type(out, *element)?;
            write_u32(out, *length)
        }
        DefValType::Tuple(parts) => write_vec(out, parts),
        DefValType::Flags(labels) | DefValType::Enum(labels) => write_vec(out, labels),
        DefValType::Result { ok, error } => {
            write_optional_val_type(out, *ok)?;
            write_optional_val_type(out, *error)
        }
        DefValType::Own(resource) | DefValType::Borrow(resource) => write_u32(out, *resource),
    }
}

/// The code of a value type that is defined.
fn def_val_type_code(def: &DefValType) -> u8
    ensures { result ≡ def_val_type_code (def_val_type_tree def.now) }
{
    match def {
        DefValType::Primitive(primitive) => prim_val_type_code(*primitive),
        DefValType::Record(_) => 0x72,
        DefValType::Variant(_) => 0x71,
        DefValType::List(_) => 0x70,
        DefValType::FixedList { .. } => 0x67,
        DefValType::Tuple(_) => 0x6f,
        DefValType::Flags(_) => 0x6e,
        DefValType::Enum(_) => 0x6d,
        DefValType::Option(_) => 0x6b,
        DefValType::Result { .. } => 0x6a,
        DefValType::Own(_) => 0x69,
        DefValType::Borrow(_) => 0x68,
    }
}

/// Appends the type of a function, behind its code.
fn write_func_type(out: &mut Vec<u8>, func: &FuncType) -> Result<(), AllocError>
    ensures { OnOk result
        (out.new.items ≡ out.old.items ++ func_spelling (func_type_tree func.now)) }
{
    write_vec(out, &func.params)?;
    write_result(out, func.result)
}

/// Appends the result of a function.
fn write_result(out: &mut Vec<u8>, result_type: Option<ValType>) -> Result<(), AllocError>
    ensures { OnOk result (out.new.items ≡ out.old.items ++ result_spelling result_type) }
{
    match result_type {
        Some(ty) => {
            out.push(0x00)?;
            write_val_type(out, ty)
        }
        None => out.extend_from_slice(&[0x01, 0x00]),
    }
}

/// Appends a value type.
fn write_val_type(out: &mut Vec<u8>, ty: ValType) -> Result<(), AllocError>
    ensures { OnOk result (out.new.items ≡ out.old.items ++ val_type_spelling ty) }
{
    match ty {
        ValType::Primitive(primitive) => {
            out.push(prim_val_type_code(primitive))?;
            Ok(())
        }
        ValType::Index(index) => write_index(out, index),
    }
}

/// Appends a value type that may be there.
fn write_optional_val_type(out: &mut Vec<u8>, ty: Option<ValType>) -> Result<(), AllocError>
    ensures { OnOk result
        (out.new.items ≡ out.old.items ++ optional_spelling val_type_spelling ty) }
{
    match ty {
        Some(ty) => {
            out.push(0x01)?;
            write_val_type(out, ty)
        }
        None => {
            out.push(0x00)?;
            Ok(())
        }
    }
}

/// Appends an index that may be there.
fn write_optional_index(out: &mut Vec<u8>, index: Option<u32>) -> Result<(), AllocError>
    ensures { OnOk result
        (out.new.items ≡ out.old.items ++ optional_spelling shortest_unsigned index) }
{
    match index {
        Some(index) => {
            out.push(0x01)?;
            write_u32(out, index)
        }
        None => {
            out.push(0x00)?;
            Ok(())
        }
    }
}

/// The code of a primitive value type.
fn prim_val_type_code(ty: PrimValType) -> u8
    ensures { result ≡ prim_val_type_code ty }
{
    match ty {
        PrimValType::Bool => 0x7f,
        PrimValType::S8 => 0x7e,
        PrimValType::U8 => 0x7d,
        PrimValType::S16 => 0x7c,
        PrimValType::U16 => 0x7b,
        PrimValType::S32 => 0x7a,
        PrimValType::U32 => 0x79,
        PrimValType::S64 => 0x78,
        PrimValType::U64 => 0x77,
        PrimValType::Char => 0x74,
        PrimValType::String => 0x73,
    }
}
