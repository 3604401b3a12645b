//! Whether a component file can spell a type.

ghost use Rattle.std.specs.Prelude.{◌≡◌};
ghost use Rattle.cm_types.specs.Spellable.{are_spellable, are_spellable_payloads};
ghost use Rattle.cm_types.specs.Spellable.{has_no_cases, has_no_fields};
ghost use Rattle.cm_types.specs.Spellable.{is_spellable, is_spellable_payload};
ghost use Rattle.cm_types.specs.TypeTrees.{shared_payload, cases_of, fields_of, parts_of};
ghost use Rattle.cm_types.specs.TypeTrees.{plain_from, type_of};

use crate::Label;
use crate::type_trees::{Case, Field, TypeNode};
use std::rc::Rc;

/// The most labels that flags may have (Binary.md, "Type Definitions").
pub const MAX_FLAGS: usize = 32;

fn has_no_fields(fields: &[Field]) -> bool
    ensures { result ≡ has_no_fields (fields_of fields.now) }
{
    match fields {
        [] => true,
        [_, ..] => false,
    }
}

fn has_no_parts(parts: &[TypeNode]) -> bool
    ensures { result ≡ has_no_fields (parts_of parts.now) }
{
    match parts {
        [] => true,
        [_, ..] => false,
    }
}

#[tactic(auto, using(crate::proofs::SpellableLemmas::cases))]
fn has_no_cases(cases: &[Case]) -> bool
    ensures { result ≡ has_no_cases (cases_of cases.now) }
{
    match cases {
        [] => true,
        [_, ..] => false,
    }
}

fn has_no_labels(labels: &[Label]) -> bool
    ensures { result ≡ has_no_cases (plain_from labels.now) }
{
    match labels {
        [] => true,
        [_, ..] => false,
    }
}

/// Whether a file can spell the type.
#[cycle(spellable)]
#[tactic(auto, using(crate::proofs::SpellableLemmas::cases))]
pub(crate) fn is_spellable(ty: &TypeNode) -> bool
    ensures { result ≡ is_spellable (type_of ty.now) }
{
    match ty {
        TypeNode::List(element) | TypeNode::Option(element) => is_spellable(element),
        TypeNode::FixedList { element, length } => *length > 0 && is_spellable(element),
        TypeNode::Record(fields) => !has_no_fields(fields) && are_spellable(fields),
        TypeNode::Tuple(parts) => !has_no_parts(parts) && are_spellable_parts(parts),
        TypeNode::Variant(cases) => !has_no_cases(cases) && are_spellable_payloads(cases),
        TypeNode::Enum(labels) => !has_no_labels(labels),
        TypeNode::Flags(labels) => !labels.is_empty() && labels.len() <= MAX_FLAGS,
        TypeNode::Result { ok, error } => {
            is_spellable_payload(ok) && is_spellable_payload(error)
        }
        TypeNode::Bool
        | TypeNode::S8
        | TypeNode::U8
        | TypeNode::S16
        | TypeNode::U16
        | TypeNode::S32
        | TypeNode::U32
        | TypeNode::S64
        | TypeNode::U64
        | TypeNode::Char
        | TypeNode::String
        | TypeNode::Own(_)
        | TypeNode::Borrow(_) => true,
    }
}

#[cycle(spellable)]
fn is_spellable_payload(payload: &Option<Rc<TypeNode>>) -> bool
    ensures { result ≡ is_spellable_payload (shared_payload payload.now) }
{
    match payload {
        Some(ty) => is_spellable(ty),
        None => true,
    }
}

/// Whether a file can spell the type of each of the fields.
#[cycle(spellable)]
pub(crate) fn are_spellable(fields: &[Field]) -> bool
    ensures { result ≡ are_spellable (fields_of fields.now) }
{
    for field in fields {
        if !is_spellable(&field.ty) {
            return false;
        }
    }
    true
}

#[cycle(spellable)]
fn are_spellable_parts(parts: &[TypeNode]) -> bool
    ensures { result ≡ are_spellable (parts_of parts.now) }
{
    for part in parts {
        if !is_spellable(part) {
            return false;
        }
    }
    true
}

#[cycle(spellable)]
#[tactic(auto, using(crate::proofs::SpellableLemmas::cases))]
fn are_spellable_payloads(cases: &[Case]) -> bool
    ensures { result ≡ are_spellable_payloads (cases_of cases.now) }
{
    for case in cases {
        if let Some(ty) = &case.payload {
            if !is_spellable(ty) {
                return false;
            }
        }
    }
    true
}
