//! Reading gates.

ghost use Rattle.std.specs.Prelude.{◌≡◌, map};
ghost use Rattle.cm_wit_tokens.specs.Reading.{Reads};
ghost use Rattle.cm_wit_projects_reading.specs.Gates.{feature_field, gate, gate_rest, gates};
ghost use Rattle.cm_wit_projects_reading.specs.Gates.{named_field, next_gate, version_field};
ghost use Rattle.cm_wit_projects_reading.specs.Views.{gate_tree, placed_gate_tree};
ghost use Rattle.std.specs.Option.{option_map};

use crate::gates::{Gate, PlacedGate};
use crate::heads::{GateHead, read_field, read_gate_head};
use crate::left_out::place;
use cm_types::Label;
use cm_wit_tokens::{Cursor, Operator, ReadError, Version};
use std::alloc::Global;

/// Reads the name of a gate's field and `=`.
fn read_named_field(cursor: &mut Cursor, name: &str) -> Result<(), ReadError>
    ensures { Reads (named_field name.now) (λ x. x) cursor.old cursor.new result }
{
    read_field(cursor, name)?;
    cursor.expect(Operator::Equals)
}

fn read_version_field(cursor: &mut Cursor) -> Result<Version, ReadError>
    ensures { Reads version_field (λ v. v) cursor.old cursor.new result }
{
    read_named_field(cursor, "version")?;
    cursor.version()
}

fn read_feature_field(cursor: &mut Cursor) -> Result<Label, ReadError>
    ensures { Reads feature_field (λ name. name) cursor.old cursor.new result }
{
    read_named_field(cursor, "feature")?;
    cursor.identifier()
}

/// Reads what a gate has in its parentheses, by its word.
fn read_gate_rest(cursor: &mut Cursor, head: GateHead) -> Result<Gate, ReadError>
    ensures { Reads (gate_rest head) gate_tree cursor.old cursor.new result }
{
    match head {
        GateHead::Since => Ok(Gate::Since(read_version_field(cursor)?)),
        GateHead::Unstable => Ok(Gate::Unstable(read_feature_field(cursor)?)),
        GateHead::Deprecated => Ok(Gate::Deprecated(read_version_field(cursor)?)),
    }
}

fn read_gate(cursor: &mut Cursor) -> Result<Gate, ReadError>
    ensures { Reads gate gate_tree cursor.old cursor.new result }
{
    cursor.expect(Operator::At)?;
    let head = read_gate_head(cursor)?;
    cursor.expect(Operator::LeftParenthesis)?;
    let gate = read_gate_rest(cursor, head)?;
    cursor.expect(Operator::RightParenthesis)?;
    Ok(gate)
}

/// Reads a gate, where one stands.
fn read_next_gate(cursor: &mut Cursor) -> Result<Option<PlacedGate>, ReadError>
    ensures { Reads next_gate (λ o. option_map placed_gate_tree o) cursor.old cursor.new result }
{
    if !cursor.next_is(Operator::At) {
        return Ok(None);
    }
    let left = place(cursor);
    let gate = read_gate(cursor)?;
    Ok(Some(PlacedGate { left, gate }))
}

/// Reads the gates that stand one behind the other.
pub fn read_gates(alloc: Global, cursor: &mut Cursor) -> Result<Vec<PlacedGate>, ReadError>
    ensures { Reads gates (λ v. map placed_gate_tree v.items) cursor.old cursor.new result }
{
    let mut gates = Vec::new(alloc);
    while let Some(gate) = read_next_gate(cursor)? {
        gates.push(gate)?;
    }
    Ok(gates)
}
