//! Definitions of types by their bytes, between which indices of other types stand (Binary.md,
//! "Type Definitions").

use crate::lists::{put, write_bytes, write_number, write_place, write_text, write_type};
use cm_types::{
    CaseType, DeclaredType, DefType, DefValType, FuncType, Label, LabeledValType, PrimValType,
    ValType,
};
use std::alloc::{AllocError, Global};
use std::collections::BTreeMap;
use std::mem;

/// What a type is to the rule of names.
#[derive(Clone, Copy, PartialEq, Eq)]
pub(crate) enum Kind {
    Resource,
    /// A record, a variant, an enum or flags.
    Named,
    /// A type that may be written where it is used, or the type of a function.
    Other,
}

/// How the index of a type is written.
#[derive(Clone, Copy, PartialEq, Eq)]
enum Form {
    /// As a value type.
    Value,
    /// As the resource of a handle.
    Resource,
}

/// Bytes, and behind them the index of a type.
#[derive(Drop)]
struct Part {
    bytes: Vec<u8>,
    ty: u32,
    form: Form,
}

/// The definition of a type.
#[derive(Drop)]
pub(crate) struct Definition {
    alloc: Global,
    pub kind: Kind,
    parts: Vec<Part>,
    /// The bytes behind the last part.
    end: Vec<u8>,
}

/// The code of a value type that has no parts.
fn primitive_code(primitive: PrimValType) -> u8 {
    match primitive {
        PrimValType::Bool => 0x7f,
        PrimValType::S8 => 0x7e,
        PrimValType::U8 => 0x7d,
        PrimValType::S16 => 0x7c,
        PrimValType::U16 => 0x7b,
        PrimValType::S32 => 0x7a,
        PrimValType::U32 => 0x79,
        PrimValType::S64 => 0x78,
        PrimValType::U64 => 0x77,
        PrimValType::Char => 0x74,
        PrimValType::String => 0x73,
    }
}

/// The code of a value type that is defined.
fn value_code(def: &DefValType) -> u8 {
    match def {
        DefValType::Primitive(primitive) => primitive_code(*primitive),
        DefValType::Record(_) => 0x72,
        DefValType::Variant(_) => 0x71,
        DefValType::List(_) => 0x70,
        DefValType::FixedList { .. } => 0x67,
        DefValType::Tuple(_) => 0x6f,
        DefValType::Flags(_) => 0x6e,
        DefValType::Enum(_) => 0x6d,
        DefValType::Option(_) => 0x6b,
        DefValType::Result { .. } => 0x6a,
        DefValType::Own(_) => 0x69,
        DefValType::Borrow(_) => 0x68,
    }
}

/// What a definition is to the rule of names.
fn kind_of(def: &DefType) -> Kind {
    match def {
        DefType::Resource(_) => Kind::Resource,
        DefType::Value(
            DefValType::Record(_)
            | DefValType::Variant(_)
            | DefValType::Enum(_)
            | DefValType::Flags(_),
        ) => Kind::Named,
        _ => Kind::Other,
    }
}

impl Definition {
    /// A definition that has no bytes so far.
    fn new(alloc: Global, kind: Kind) -> Definition {
        Definition {
            alloc,
            kind,
            parts: Vec::new(alloc),
            end: Vec::new(alloc),
        }
    }

    /// The definition of a type. That of a resource has no bytes.
    pub(crate) fn of(alloc: Global, def: &DefType) -> Result<Definition, AllocError> {
        let mut definition = Definition::new(alloc, kind_of(def));
        definition.add_def(def)?;
        Ok(definition)
    }

    /// The definition of a type that the type of an instance declares.
    pub(crate) fn of_declared(alloc: Global, ty: &DeclaredType) -> Result<Definition, AllocError> {
        let mut definition = Definition::new(alloc, Kind::Other);
        match ty {
            DeclaredType::Value(value) => definition.add_value(value)?,
            DeclaredType::Func(func) => definition.add_func(func)?,
        }
        Ok(definition)
    }

    fn add_def(&mut self, def: &DefType) -> Result<(), AllocError> {
        match def {
            DefType::Value(value) => self.add_value(value),
            DefType::Func(func) => self.add_func(func),
            DefType::Resource(_) | DefType::Instance(_) => Ok(()),
        }
    }

    fn add_byte(&mut self, byte: u8) -> Result<(), AllocError> {
        put(&mut self.end, byte)
    }

    fn add_count(&mut self, count: usize) -> Result<(), AllocError> {
        write_number(&mut self.end, count)
    }

    /// Adds the index of a type.
    fn add_part(&mut self, ty: u32, form: Form) -> Result<(), AllocError> {
        let bytes = mem::replace(&mut self.end, Vec::new(self.alloc));
        put(&mut self.parts, Part { bytes, ty, form })
    }

    /// Adds a type where it is used.
    fn add_used(&mut self, ty: ValType) -> Result<(), AllocError> {
        match ty {
            ValType::Primitive(primitive) => self.add_byte(primitive_code(primitive)),
            ValType::Index(index) => self.add_part(index, Form::Value),
        }
    }

    /// Adds a type that may be there.
    fn add_optional(&mut self, ty: Option<ValType>) -> Result<(), AllocError> {
        match ty {
            Some(ty) => {
                self.add_byte(0x01)?;
                self.add_used(ty)
            }
            None => self.add_byte(0x00),
        }
    }

    fn add_fields(&mut self, fields: &[LabeledValType]) -> Result<(), AllocError> {
        self.add_count(fields.len())?;
        for field in fields {
            write_text(&mut self.end, field.label.as_str())?;
            self.add_used(field.ty)?;
        }
        Ok(())
    }

    fn add_cases(&mut self, cases: &[CaseType]) -> Result<(), AllocError> {
        self.add_count(cases.len())?;
        for case in cases {
            write_text(&mut self.end, case.label.as_str())?;
            self.add_optional(case.payload)?;
            self.add_byte(0x00)?;
        }
        Ok(())
    }

    fn add_labels(&mut self, labels: &[Label]) -> Result<(), AllocError> {
        self.add_count(labels.len())?;
        for label in labels {
            write_text(&mut self.end, label.as_str())?;
        }
        Ok(())
    }

    fn add_tuple(&mut self, types: &[ValType]) -> Result<(), AllocError> {
        self.add_count(types.len())?;
        for ty in types {
            self.add_used(*ty)?;
        }
        Ok(())
    }

    fn add_value(&mut self, def: &DefValType) -> Result<(), AllocError> {
        self.add_byte(value_code(def))?;
        match def {
            DefValType::Primitive(_) => Ok(()),
            DefValType::Record(fields) => self.add_fields(fields),
            DefValType::Variant(cases) => self.add_cases(cases),
            DefValType::List(ty) | DefValType::Option(ty) => self.add_used(*ty),
            DefValType::FixedList { element, length } => {
                self.add_used(*element)?;
                write_place(&mut self.end, *length)
            }
            DefValType::Tuple(types) => self.add_tuple(types),
            DefValType::Flags(labels) | DefValType::Enum(labels) => self.add_labels(labels),
            DefValType::Result { ok, error } => {
                self.add_optional(*ok)?;
                self.add_optional(*error)
            }
            DefValType::Own(ty) | DefValType::Borrow(ty) => self.add_part(*ty, Form::Resource),
        }
    }

    fn add_func(&mut self, func: &FuncType) -> Result<(), AllocError> {
        self.add_byte(0x40)?;
        self.add_fields(&func.params)?;
        match func.result {
            Some(ty) => {
                self.add_byte(0x00)?;
                self.add_used(ty)
            }
            None => write_bytes(&mut self.end, &[0x01, 0x00]),
        }
    }

    /// Puts for each type the first one that is equal.
    pub(crate) fn settle(&mut self, same: &[u32]) {
        for part in &mut self.parts {
            if let Some(first) = same.get(part.ty as usize) {
                part.ty = *first;
            }
        }
    }

    /// Adds the types in it to a list.
    pub(crate) fn add_types_to(&self, found: &mut Vec<u32>) -> Result<(), AllocError> {
        for part in &self.parts {
            put(found, part.ty)?;
        }
        Ok(())
    }

    /// Writes it with the indices that its types have here; others have their own.
    pub(crate) fn write(
        &self,
        out: &mut Vec<u8>,
        indices: &BTreeMap<u32, u32>,
    ) -> Result<(), AllocError> {
        for part in &self.parts {
            write_bytes(out, &part.bytes)?;
            let index = indices.get(&part.ty).copied().unwrap_or(part.ty);
            match part.form {
                Form::Value => write_type(out, index)?,
                Form::Resource => write_place(out, index)?,
            }
        }
        write_bytes(out, &self.end)
    }
}
