//! Definitions with the places of the types that they name.

ghost use Rattle.std.specs.Prelude.{◌≡◌, IfOk};
ghost use Rattle.cm_types.specs.declared.resource.ResourceId.{ResourceId};
ghost use Rattle.cm_types_arena.specs.TypeDefs as arena;
ghost use Rattle.cm_validate_model.specs.Scopes.{primitive_type, resource_id};

use crate::entries::TypeEntry;
use crate::scope::TypeScope;
use cm_types::{CaseType, DefValType, FuncType, LabeledValType, PrimValType, ResourceId, ValType};
use cm_types_arena::{CaseDef, FieldDef, FuncDef, Primitive, TypeDef};
use std::alloc::{AllocError, Global};

fn primitive(primitive: PrimValType) -> Primitive
    ensures { arena.primitive_type result ≡ primitive_type primitive }
{
    match primitive {
        PrimValType::Bool => Primitive::Bool,
        PrimValType::S8 => Primitive::S8,
        PrimValType::U8 => Primitive::U8,
        PrimValType::S16 => Primitive::S16,
        PrimValType::U16 => Primitive::U16,
        PrimValType::S32 => Primitive::S32,
        PrimValType::U32 => Primitive::U32,
        PrimValType::S64 => Primitive::S64,
        PrimValType::U64 => Primitive::U64,
        PrimValType::Char => Primitive::Char,
        PrimValType::String => Primitive::String,
    }
}

/// The resource of this number.
fn resource_id(number: u64) -> ResourceId
    ensures { result ≡ resource_id number }
{
    ResourceId {
        component: 0,
        number,
    }
}

impl TypeScope {
    ghost use Rattle.std.specs.Prelude.{◌<◌, length, map};
    ghost use Rattle.std.specs.List.{AllByRecursion};
    ghost use Rattle.std.specs.Option.{option_map};
    ghost use Rattle.cm_types.specs.DefTypes.{def_val_type_tree, func_type_tree};
    ghost use Rattle.cm_types_arena.specs.Places.{HasFuncParts, HasParts};
    ghost use Rattle.cm_types_arena.specs.TypeDefs.{IsBelow, case_def_type, def_type};
    ghost use Rattle.cm_types_arena.specs.TypeDefs.{field_def_type, func_def_type, type_at};
    ghost use Rattle.cm_validate_types.specs.Expansion.{case_or_bool, func_or_bool};
    ghost use Rattle.cm_validate_types.specs.Expansion.{labeled_or_bool, resource_or_zero};
    ghost use Rattle.cm_validate_types.specs.Expansion.{type_or_bool, value_or_bool};
    ghost use Rattle.cm_validate_types.specs.TypeScopes.{arena_types, unmoved_types};

    /// The place of a value type where it is used, with no resource moved; that of `bool` where it
    /// names none.
    pub(crate) fn value_place(&self, ty: ValType) -> usize
        ensures there { result < length (arena_types self.now) }
        ensures ty { type_at (arena_types self.now) result
            ≡ value_or_bool (unmoved_types self.now) ty }
    {
        match ty {
            ValType::Primitive(p) => self.types.primitive(primitive(p)),
            ValType::Index(index) => match self.own.entries.get(index as usize) {
                Some(TypeEntry::Value(placed)) => placed.place,
                _ => self.types.primitive(Primitive::Bool),
            },
        }
    }

    /// The place of a payload or of a result, if there is one.
    pub(crate) fn payload_place(&self, payload: Option<ValType>) -> Option<usize>
        ensures there { IsBelow (length (arena_types self.now)) result }
        ensures ty { option_map (type_at (arena_types self.now)) result
            ≡ option_map (value_or_bool (unmoved_types self.now)) payload }
    {
        match payload {
            Some(ty) => Some(self.value_place(ty)),
            None => None,
        }
    }

    /// The resource that an index names; the first one where it names none.
    fn resource(&self, index: u32) -> ResourceId
        ensures { result ≡ resource_id (resource_or_zero (unmoved_types self.now) index) }
    {
        match self.own.entries.get(index as usize) {
            Some(TypeEntry::Resource(number)) => resource_id(*number),
            _ => resource_id(0),
        }
    }

    fn field_defs(
        &self,
        alloc: Global,
        fields: &[LabeledValType],
    ) -> Result<Vec<FieldDef>, AllocError>
        ensures there { IfOk result (λ defs.
            AllByRecursion (λ d. d.ty < length (arena_types self.now)) defs.items) }
        ensures types { IfOk result (λ defs.
            map (field_def_type (arena_types self.now)) defs.items
            ≡ map (labeled_or_bool (unmoved_types self.now)) fields.now) }
    {
        let mut defs = Vec::new(alloc);
        for field in fields {
            defs.push(FieldDef {
                label: field.label.clone()?,
                ty: self.value_place(field.ty),
            })?;
        }
        Ok(defs)
    }

    fn case_defs(&self, alloc: Global, cases: &[CaseType]) -> Result<Vec<CaseDef>, AllocError>
        ensures there { IfOk result (λ defs.
            AllByRecursion (λ d. IsBelow (length (arena_types self.now)) d.payload) defs.items) }
        ensures types { IfOk result (λ defs.
            map (case_def_type (arena_types self.now)) defs.items
            ≡ map (case_or_bool (unmoved_types self.now)) cases.now) }
    {
        let mut defs = Vec::new(alloc);
        for case in cases {
            defs.push(CaseDef {
                label: case.label.clone()?,
                payload: self.payload_place(case.payload),
            })?;
        }
        Ok(defs)
    }

    fn places(&self, alloc: Global, types: &[ValType]) -> Result<Vec<usize>, AllocError>
        ensures there { IfOk result (λ places.
            AllByRecursion (λ p. p < length (arena_types self.now)) places.items) }
        ensures types { IfOk result (λ places.
            map (type_at (arena_types self.now)) places.items
            ≡ map (value_or_bool (unmoved_types self.now)) types.now) }
    {
        let mut places = Vec::new(alloc);
        for ty in types {
            places.push(self.value_place(*ty))?;
        }
        Ok(places)
    }

    /// The definition with places in the arena, its labels copied once. `AllocError` comes where
    /// there is no memory for it.
    pub(crate) fn arena_def(&self, alloc: Global, def: &DefValType) -> Result<TypeDef, AllocError>
        ensures parts { IfOk result (HasParts (length (arena_types self.now))) }
        ensures ty { IfOk result (λ d. def_type (arena_types self.now) d
            ≡ type_or_bool (unmoved_types self.now) (def_val_type_tree def.now)) }
    {
        Ok(match def {
            DefValType::Primitive(p) => TypeDef::Primitive(primitive(*p)),
            DefValType::Record(fields) => TypeDef::Record(self.field_defs(alloc, fields)?),
            DefValType::Variant(cases) => TypeDef::Variant(self.case_defs(alloc, cases)?),
            DefValType::List(ty) => TypeDef::List(self.value_place(*ty)),
            DefValType::FixedList { element, length } => TypeDef::FixedList {
                element: self.value_place(*element),
                length: *length,
            },
            DefValType::Tuple(types) => TypeDef::Tuple(self.places(alloc, types)?),
            DefValType::Flags(labels) => TypeDef::Flags(labels.clone()?),
            DefValType::Enum(labels) => TypeDef::Enum(labels.clone()?),
            DefValType::Option(ty) => TypeDef::Option(self.value_place(*ty)),
            DefValType::Result { ok, error } => TypeDef::Result {
                ok: self.payload_place(*ok),
                error: self.payload_place(*error),
            },
            DefValType::Own(index) => TypeDef::Own(self.resource(*index)),
            DefValType::Borrow(index) => TypeDef::Borrow(self.resource(*index)),
        })
    }

    /// The definition of the type of a function with places in the arena, its labels copied once.
    pub(crate) fn arena_func(&self, alloc: Global, func: &FuncType) -> Result<FuncDef, AllocError>
        ensures parts { IfOk result (HasFuncParts (length (arena_types self.now))) }
        ensures ty { IfOk result (λ d. func_def_type (arena_types self.now) d
            ≡ func_or_bool (unmoved_types self.now) (func_type_tree func.now)) }
    {
        Ok(FuncDef {
            params: self.field_defs(alloc, &func.params)?,
            result: self.payload_place(func.result),
        })
    }
}
