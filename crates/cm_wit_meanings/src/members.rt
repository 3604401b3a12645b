//! What the fields, cases and parameters of texts stand for.

ghost use Rattle.std.specs.Prelude.{◌≡◌, IfOk, IfErr, Some, length, map};
ghost use Rattle.std.specs.Option.{option_map};
ghost use Rattle.cm_types_arena.specs.Places.{funcs_of, types_of};
ghost use Rattle.cm_types_arena.specs.TypeDefs.{IsBelow, type_at};
ghost use Rattle.cm_wit_reading.specs.TypeViews.{type_tree};
ghost use Rattle.cm_wit_reading.specs.SignatureViews.{typed_tree};
ghost use Rattle.cm_wit_reading.specs.Views.{case_tree};
ghost use Rattle.cm_wit_meanings.specs.Faults.{IsPayloadFault};
ghost use Rattle.cm_wit_meanings.specs.Meanings.{case_meaning, each_meaning, payload_meaning};
ghost use Rattle.cm_wit_meanings.specs.Meanings.{typed_meaning};
ghost use Rattle.cm_wit_meanings.specs.Places.{ArePlaced, Extends, scope_in};
ghost use Rattle.cm_wit_meanings.specs.PartsAdded.{AddedCase, AddedCases, AddedField};
ghost use Rattle.cm_wit_meanings.specs.PartsAdded.{AddedFields};

use crate::types::push_payload;
use crate::{MeaningFault, Scope, push_type};
use cm_types_arena::{CaseDef, FieldDef, Types};
use cm_wit_reading::{Case, Typed, WitType};
use std::alloc::Global;

/// Adds the type of a field, and answers the field with its place.
fn push_field(
    alloc: Global,
    types: &mut Types,
    scope: &Scope<'_, '_>,
    text: &Typed,
) -> Result<FieldDef, MeaningFault>
    requires placed { ArePlaced (length (types_of types.old)) scope.now.table.now }
    ensures { AddedField types.old types.new (typed_meaning
        (scope_in (types_of types.old) scope.now) (typed_tree text.now)) result }
{
    let label = text.name.clone()?;
    let ty = push_type(alloc, types, scope, &text.ty)?;
    Ok(FieldDef { label, ty })
}

/// Adds the types of fields or parameters, and answers these with their places, in order.
///
/// The names in them are looked up in the scope. Faults come as those of `push_type`, in the order
/// of the texts, and `Memory` also where the answer finds none; then some of the types may have
/// been added. Earlier types stay as they are. It costs the length of the texts and a look-up for
/// each name. (WIT.md, "Item: `record`", "Item: `func`")
pub fn push_fields(
    alloc: Global,
    types: &mut Types,
    scope: &Scope<'_, '_>,
    texts: &[Typed],
) -> Result<Vec<FieldDef>, MeaningFault>
    requires placed { ArePlaced (length (types_of types.old)) scope.now.table.now }
    ensures { AddedFields types.old types.new
        (each_meaning (typed_meaning (scope_in (types_of types.old) scope.now))
        (map typed_tree texts.now)) result }
{
    let mut fields = Vec::with_capacity(alloc, texts.len())?;
    for text in texts {
        let field = push_field(alloc, types, scope, text)?;
        if fields.push(field).is_err() {
            return Err(MeaningFault::Memory);
        }
    }
    Ok(fields)
}

/// Adds the type of a result, if there is one, and answers its place; none is added for none.
///
/// Faults come as those of `push_type`; then some of the types in it may have been added. Earlier
/// types stay as they are. (WIT.md, "Item: `func`")
#[tactic(auto, using(crate::proofs::MemberLaws::payload_laws))]
pub fn push_result(
    alloc: Global,
    types: &mut Types,
    scope: &Scope<'_, '_>,
    text: &Option<WitType>,
) -> Result<Option<usize>, MeaningFault>
    requires placed { ArePlaced (length (types_of types.old)) scope.now.table.now }
    ensures there { IfOk result (IsBelow (length (types_of types.new))) }
    ensures meaning { IfOk result (λ p.
        payload_meaning (scope_in (types_of types.old) scope.now) (option_map type_tree text.now)
        ≡ Some (option_map (type_at (types_of types.new)) p)) }
    ensures fault { IfErr result
        (IsPayloadFault (payload_meaning (scope_in (types_of types.old) scope.now)
        (option_map type_tree text.now))) }
    ensures grown { Extends (types_of types.old) (types_of types.new) }
    ensures funcs { funcs_of types.new ≡ funcs_of types.old }
{
    match text {
        None => Ok(None),
        Some(text) => Ok(Some(push_type(alloc, types, scope, text)?)),
    }
}

/// Adds the type of a case's payload, if it carries one, and answers the case with its place.
fn push_case(
    alloc: Global,
    types: &mut Types,
    scope: &Scope<'_, '_>,
    text: &Case,
) -> Result<CaseDef, MeaningFault>
    requires placed { ArePlaced (length (types_of types.old)) scope.now.table.now }
    ensures { AddedCase types.old types.new (case_meaning
        (scope_in (types_of types.old) scope.now) (case_tree text.now)) result }
{
    let label = text.name.clone()?;
    let payload = push_payload(alloc, types, scope, &text.ty)?;
    Ok(CaseDef { label, payload })
}

/// Adds the types of the payloads of cases, and answers these with their places.
pub fn push_cases(
    alloc: Global,
    types: &mut Types,
    scope: &Scope<'_, '_>,
    texts: &[Case],
) -> Result<Vec<CaseDef>, MeaningFault>
    requires placed { ArePlaced (length (types_of types.old)) scope.now.table.now }
    ensures { AddedCases types.old types.new
        (each_meaning (case_meaning (scope_in (types_of types.old) scope.now))
        (map case_tree texts.now)) result }
{
    let mut cases = Vec::with_capacity(alloc, texts.len())?;
    for text in texts {
        let case = push_case(alloc, types, scope, text)?;
        if cases.push(case).is_err() {
            return Err(MeaningFault::Memory);
        }
    }
    Ok(cases)
}
