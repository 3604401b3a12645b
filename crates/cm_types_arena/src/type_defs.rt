//! Types in terms of earlier ones.

ghost use Rattle.std.specs.Prelude.{◌≡◌, ◌↔◌, ◌≤◌, ◌++◌, ◌∷◌, [], IfOk, IsTrue, OnOk};
ghost use Rattle.std.specs.Option.{SomeIff};
ghost use Rattle.cm_types.specs.declared.limits.TheConstants.{MAX_DEPTH, MAX_NODES};
ghost use Rattle.cm_types_arena.specs.TypeDefs.{def_parts, is_spellable_def, option_list};
ghost use Rattle.cm_types_arena.specs.TypeDefs.{IsBelow, payload_places};
ghost use Rattle.cm_types_arena.specs.Places.{HasParts};
ghost use Rattle.cm_types_arena.specs.Summaries.{def_summary};

use crate::primitives::Primitive;
use crate::summaries::Summary;
use cm_types::{Label, MAX_FLAGS, ResourceId};
use std::alloc::{AllocError, Global};

/// A type whose parts stand as the places of earlier definitions (Binary.md, "Type Definitions").
#[derive(Drop)]
pub enum TypeDef {
    Primitive(Primitive),
    /// A list of elements of the type at this place.
    List(usize),
    /// A list of exactly `length` elements of the type at this place.
    FixedList {
        element: usize,
        length: u32,
    },
    Record(Vec<FieldDef>),
    /// The places of the types of its fields.
    Tuple(Vec<usize>),
    Variant(Vec<CaseDef>),
    /// The labels of its cases.
    Enum(Vec<Label>),
    Flags(Vec<Label>),
    /// An option of the type at this place.
    Option(usize),
    /// The places of its payloads.
    Result {
        ok: Option<usize>,
        error: Option<usize>,
    },
    Own(ResourceId),
    Borrow(ResourceId),
}

/// A field of a record, or a parameter of a function: its label, and the place of its type.
#[derive(Drop)]
pub struct FieldDef {
    pub label: Label,
    pub ty: usize,
}

/// A case of a variant, with the place of the type of its payload, if it carries one.
#[derive(Drop)]
pub struct CaseDef {
    pub label: Label,
    pub payload: Option<usize>,
}

impl TypeDef {
    /// Whether each of its parts has a place among so many types.
    pub fn has_parts_below(&self, count: usize) -> bool
        ensures { IsTrue result ↔ HasParts count self.now }
    {
        match self {
            TypeDef::List(part) | TypeDef::Option(part) => *part < count,
            TypeDef::FixedList { element, .. } => *element < count,
            TypeDef::Record(fields) => fields.iter().all(|field| field.ty < count),
            TypeDef::Tuple(parts) => parts.iter().all(|part| *part < count),
            TypeDef::Variant(cases) => cases.iter().all(|case| is_below(case.payload, count)),
            TypeDef::Result { ok, error } => is_below(*ok, count) && is_below(*error, count),
            TypeDef::Primitive(_)
            | TypeDef::Enum(_)
            | TypeDef::Flags(_)
            | TypeDef::Own(_)
            | TypeDef::Borrow(_) => true,
        }
    }

    /// The places of its parts, in the order in which they stand.
    pub(crate) fn parts(&self, alloc: Global) -> Result<Vec<usize>, AllocError>
        ensures { IfOk result (λ parts. parts.items ≡ def_parts self.now) }
    {
        match self {
            TypeDef::List(part) | TypeDef::Option(part) => one(alloc, *part),
            TypeDef::FixedList { element, .. } => one(alloc, *element),
            TypeDef::Record(fields) => fields.iter().map(|field| field.ty).collect(alloc),
            TypeDef::Tuple(parts) => parts.clone(),
            TypeDef::Variant(cases) => payload_places(alloc, cases),
            TypeDef::Result { ok, error } => {
                let mut parts = Vec::new(alloc);
                push_some(&mut parts, *ok)?;
                push_some(&mut parts, *error)?;
                Ok(parts)
            }
            TypeDef::Primitive(_)
            | TypeDef::Enum(_)
            | TypeDef::Flags(_)
            | TypeDef::Own(_)
            | TypeDef::Borrow(_) => Ok(Vec::new(alloc)),
        }
    }

    /// Whether a file can spell it, if it can spell its parts.
    pub(crate) fn is_spellable(&self) -> bool
        ensures { result ≡ is_spellable_def self.now }
    {
        match self {
            TypeDef::FixedList { length, .. } => *length > 0,
            TypeDef::Record(fields) => !fields.is_empty(),
            TypeDef::Tuple(parts) => !parts.is_empty(),
            TypeDef::Variant(cases) => !cases.is_empty(),
            TypeDef::Enum(labels) => !labels.is_empty(),
            TypeDef::Flags(labels) => !labels.is_empty() && labels.len() <= MAX_FLAGS,
            _ => true,
        }
    }

    /// What is known of it, given that of its parts together; none where it is over the limits.
    pub(crate) fn summary(&self, parts: Summary) -> Option<Summary>
        ensures { SomeIff result
            (((def_summary self.now parts).nodes ≤ MAX_NODES)
            × ((def_summary self.now parts).depth ≤ MAX_DEPTH))
            (def_summary self.now parts) }
    {
        match self {
            TypeDef::Primitive(Primitive::String) => {
                let above = parts.above(1)?;
                Some(Summary {
                    holds_string: true,
                    ..above
                })
            }
            TypeDef::List(_) => {
                let above = parts.above(1)?;
                Some(Summary {
                    holds_list: true,
                    ..above
                })
            }
            TypeDef::FixedList { length, .. } => parts.above((*length).max(1)),
            TypeDef::Own(_) => {
                let above = parts.above(1)?;
                Some(Summary {
                    holds_handle: true,
                    ..above
                })
            }
            TypeDef::Borrow(_) => {
                let above = parts.above(1)?;
                Some(Summary {
                    holds_borrow: true,
                    holds_handle: true,
                    ..above
                })
            }
            _ => parts.above(1),
        }
    }
}

fn one(alloc: Global, part: usize) -> Result<Vec<usize>, AllocError>
    ensures { IfOk result (λ parts. parts.items ≡ part ∷ []) }
{
    Ok(vec![in alloc; part]?)
}

fn payload_places(alloc: Global, cases: &[CaseDef]) -> Result<Vec<usize>, AllocError>
    ensures { IfOk result (λ parts. parts.items ≡ payload_places cases.now) }
{
    let mut parts = Vec::new(alloc);
    for case in cases {
        push_some(&mut parts, case.payload)?;
    }
    Ok(parts)
}

fn push_some(parts: &mut Vec<usize>, part: Option<usize>) -> Result<(), AllocError>
    ensures { OnOk result (parts.new.items ≡ parts.old.items ++ option_list part) }
{
    if let Some(place) = part {
        parts.push(place)?;
    }
    Ok(())
}

/// Whether the part, if there is one, has a place among so many types.
pub(crate) fn is_below(part: Option<usize>, count: usize) -> bool
    ensures { IsTrue result ↔ IsBelow count part }
{
    match part {
        None => true,
        Some(place) => place < count,
    }
}
