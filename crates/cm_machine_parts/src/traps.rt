//! What a trap does to the state.

ghost use Rattle.std.specs.Prelude.{◌≡◌, [], map, slice_set};
ghost use Rattle.cm_handles.specs.Handles.{after_close};
ghost use Rattle.cm_machine_model.specs.Plan.{Plan};
ghost use Rattle.cm_machine_model.specs.State.{after_trap, closed_after_trap, place_after_trap};
ghost use Rattle.cm_machine_model.specs.State.{table_at, tables_after_trap};
ghost use Rattle.cm_machine_parts.specs.Closing.{AreClosed};
ghost use Rattle.cm_machine_parts.specs.Kept.{IsKept};
ghost use Rattle.cm_machine_parts.specs.States.{handles_in, state_of};

use crate::stack::Stack;
use crate::state::State;
use cm_handles::Table;
use cm_machine_model::MAX_INSTANCES;
use cm_machine_model::state::Place;

/// Closes the table of an instance, unless it is marked as closed, and marks it.
fn close_table(tables: &mut Vec<Table>, done: &mut [bool], instance: usize)
    requires { AreClosed done.old (handles_in tables.old.items) }
    ensures tables { handles_in tables.new.items ≡ slice_set (handles_in tables.old.items) instance
        (after_close (table_at (handles_in tables.old.items) instance)) }
    ensures closed { AreClosed done.new (handles_in tables.new.items) }
{
    if instance >= tables.len() {
        return;
    }
    if instance < done.len() && done[instance] {
        return;
    }
    let table = &mut tables[instance];
    table.close();
    if instance < done.len() {
        done[instance] = true;
    }
}

/// Takes all frames off the stack and closes their instances, the table of each once.
fn close_frames(stack: &mut Stack, closed: &mut Vec<bool>, tables: &mut Vec<Table>)
    ensures emptied { stack.new.frames ≡ [] }
    ensures closed { closed.new.items ≡ closed_after_trap stack.old.frames closed.old.items }
    ensures tables { handles_in tables.new.items
        ≡ tables_after_trap stack.old.frames (handles_in tables.old.items) }
{
    let mut done = [false; MAX_INSTANCES];
    while let Some(frame) = stack.pop() {
        let instance = frame.instance as usize;
        if instance < closed.len() {
            closed[instance] = true;
        }
        close_table(tables, &mut done, instance);
    }
}

/// Where a resource is after a trap.
fn place_after_trap(place: Place) -> Place
    ensures { result ≡ place_after_trap place }
{
    match place {
        Place::Travelling { .. } => Place::Abandoned,
        Place::InTable { .. } | Place::Abandoned | Place::Dropped => place,
    }
}

/// Leaves what was on its way with nobody. This walks over all resources that were made: a set has
/// no more traps than instances.
fn abandon(owners: &mut Vec<Place>)
    ensures { owners.new.items ≡ map place_after_trap owners.old.items }
{
    for place in owners.iter_mut() {
        *place = place_after_trap(*place);
    }
}

/// What a trap does to the state: the stack is emptied and its instances are closed, what was on
/// its way is lost, and nothing is lent; memories and owned handles stay.
pub fn close_all(state: &mut State)
    ensures trapped { state_of state.new ≡ after_trap (state_of state.old) }
    ensures kept { (plan : Plan) → IsKept plan state.new }
{
    close_frames(&mut state.stack, &mut state.closed, &mut state.tables);
    abandon(&mut state.owners);
    state.lends.truncate(0);
    state.passing.scan.clear();
}
