//! Drops a handle (CanonicalABI.md, `canon resource.drop`).

ghost use Rattle.std.specs.Prelude.{◌≡◌, ◌<◌, OnOk, Some, length, slice_set};
ghost use Rattle.cm_handles.specs.declared.handle.HandleKind.TheVariants as kind;
ghost use Rattle.cm_handles.specs.Handles.{after_release, if_not_lent, look_up};
ghost use Rattle.cm_machine_model.specs.declared.frame.Purpose.TheVariants as purpose;
ghost use Rattle.cm_machine_model.specs.Plan.{Plan};
ghost use Rattle.cm_machine_model.specs.Stack.{actor, top_of};
ghost use Rattle.cm_machine_model.specs.State.{table_at};
ghost use Rattle.cm_machine_model.specs.Step.{Drops, DropsOwned, HasRoom, after_drop};
ghost use Rattle.cm_machine_model.specs.Step.{pushed, without_handle};
ghost use Rattle.cm_machine_parts.specs.Kept.{AreBorrowsCounted, IsKept, Runs};
ghost use Rattle.cm_machine_parts.specs.Rows.{MeetsRow};
ghost use Rattle.cm_machine_parts.specs.States.{handles_in, state_of};
ghost use Rattle.cm_machine_resources.specs.Dropping.{IsFound};

use crate::faults::trap_of_handle;
use cm_handles::laws::borrows_are_counted;
use cm_handles::{Handle, HandleFault, HandleKind, Table};
use cm_machine_model::state::{Frame, Place, Purpose};
use cm_machine_model::{Flat, Trap};
use cm_machine_parts::laws::{frames_have_instances, tables_are_handles, what_is_kept_stays};
use cm_machine_parts::{Outcome, State, actor, has_room, is_closed, may_leave, one_i32};
use cm_types::{CoreValue, ResourceId};

/// A handle that can be dropped, and where it stands.
#[derive(Clone, Copy)]
struct Dropped {
    instance: u32,
    index: u32,
    resource: ResourceId,
    handle: Handle,
}

/// The handle at an index of a table, which is to be of a resource and not lent.
fn find(table: &Table, index: u32, resource: ResourceId) -> Result<Handle, HandleFault>
    ensures { result ≡ if_not_lent (look_up table.now.handles index resource) }
{
    let handle = table.get(index, resource)?;
    if handle.lends > 0 {
        return Err(HandleFault::StillLent);
    }
    Ok(handle)
}

/// Takes a handle out of its table.
fn release(tables: &mut Vec<Table>, dropped: &Dropped)
    requires { IsFound (handles_in tables.old.items) dropped.now }
    ensures { handles_in tables.new.items ≡ slice_set (handles_in tables.old.items)
        dropped.now.instance
        (after_release (table_at (handles_in tables.old.items) dropped.now.instance)
        dropped.now.index) }
{
    tables_are_handles();
    let table = &mut tables[dropped.instance as usize];
    match table.drop_handle(dropped.index, dropped.resource) {
        Ok(_) => {}
        Err(_) => unreachable!(),
    }
}

/// Drops a handle that owns its resource, which was made: the resource is dropped too.
fn release_owned(state: &mut State, dropped: &Dropped)
    requires found { IsFound (state_of state.old).tables dropped.now }
    requires owned { dropped.now.handle.kind ≡ kind.Owned }
    requires made { dropped.now.handle.serial < length state.old.owners.items }
    ensures dropped { state_of state.new ≡ after_drop (state_of state.old) dropped.now.instance
        dropped.now.index dropped.now.handle }
    ensures stack { state.new.stack ≡ state.old.stack }
    ensures passing { state.new.passing ≡ state.old.passing }
    ensures counted { AreBorrowsCounted state.old.stack.borrows state.old.stack.frames
        (state_of state.old).tables
        → AreBorrowsCounted state.new.stack.borrows state.new.stack.frames
        (state_of state.new).tables }
{
    borrows_are_counted();
    what_is_kept_stays();
    release(&mut state.tables, dropped);
    state.owners[dropped.handle.serial as usize] = Place::Dropped;
}

/// Drops a handle that owns its resource, and runs the destructor, if there is one.
fn drop_owned(
    state: &mut State,
    destructor: Option<u32>,
    dropped: &Dropped,
    values: &mut Flat,
) -> Result<Outcome, Trap>
    requires runs { (plan : Plan) × Runs plan state.old }
    requires found { IsFound (state_of state.old).tables dropped.now }
    requires owned { dropped.now.handle.kind ≡ kind.Owned }
    ensures row { MeetsRow (DropsOwned (state_of state.old) dropped.now.instance
        dropped.now.resource destructor dropped.now.index dropped.now.handle) result values.new
        (state_of state.new) }
    ensures kept { (plan : Plan) → Runs plan state.old → OnOk result (IsKept plan state.new) }
{
    let Some(func) = destructor else {
        release_owned(state, dropped);
        values.clear();
        return Ok(Outcome::Resume {
            instance: dropped.instance,
        });
    };
    let instance = dropped.resource.component;
    if is_closed(state, instance) {
        return Err(Trap::CalleeClosed);
    }
    if !has_room(state) {
        return Err(Trap::StackFull);
    }
    run_destructor(state, dropped);
    Ok(Outcome::Dtor {
        instance,
        func,
        rep: dropped.handle.rep,
    })
}

/// Drops a handle that owns its resource, and puts the frame of the destructor on the stack.
fn run_destructor(state: &mut State, dropped: &Dropped)
    requires runs { (plan : Plan) × Runs plan state.old }
    requires found { IsFound (state_of state.old).tables dropped.now }
    requires owned { dropped.now.handle.kind ≡ kind.Owned }
    requires room { HasRoom (state_of state.old) }
    ensures runs { state_of state.new
        ≡ pushed (record {
          instance = dropped.now.resource.component;
          purpose = purpose.Destructor dropped.now.instance;
        })
        (after_drop (state_of state.old) dropped.now.instance dropped.now.index
        dropped.now.handle) }
    ensures kept { (plan : Plan) → Runs plan state.old → IsKept plan state.new }
{
    frames_have_instances();
    what_is_kept_stays();
    // Read first, so that the check knows how many numbers of borrows there are.
    let _ = state.stack.len();
    state.stack.push(Frame {
        instance: dropped.resource.component,
        purpose: Purpose::Destructor {
            dropper: dropped.instance,
        },
    });
    release_owned(state, dropped);
}

/// Drops a handle that was borrowed for a call.
fn drop_borrowed(state: &mut State, call: u32, dropped: &Dropped)
    requires runs { (plan : Plan) × Runs plan state.old }
    requires found { IsFound (state_of state.old).tables dropped.now }
    requires borrowed { dropped.now.handle.kind ≡ kind.Borrowed call }
    ensures dropped { state_of state.new ≡ without_handle (state_of state.old)
        dropped.now.instance dropped.now.index }
    ensures kept { (plan : Plan) → Runs plan state.old → IsKept plan state.new }
{
    borrows_are_counted();
    frames_have_instances();
    what_is_kept_stays();
    // Read first, so that the check knows how many numbers of borrows there are.
    let _ = state.stack.len();
    release(&mut state.tables, dropped);
    let place = call as usize;
    let count = state.stack.borrows(place);
    state.stack.set_borrows(place, count - 1);
}

/// Drops the handle of the acting instance at the index that is the one core value; of one that
/// owns its resource the destructor runs, if there is one, in the instance that defines the
/// resource. Else the instance goes on.
///
/// `CoreShape` where the core values are not one `i32`, else `MayNotLeave` where the instance may
/// not call out, else what is wrong with the handle; where a destructor is to run, `CalleeClosed`
/// where its instance is closed, else `StackFull`. The state is then as it was.
pub fn drop_resource(
    state: &mut State,
    top: &Frame,
    resource: ResourceId,
    destructor: Option<u32>,
    args: &[CoreValue],
    values: &mut Flat,
) -> Result<Outcome, Trap>
    requires runs { (plan : Plan) × Runs plan state.old }
    requires top { top_of state.old.stack.frames ≡ Some top.now }
    ensures row { MeetsRow (Drops (state_of state.old) top.now resource destructor args.now) result
        values.new (state_of state.new) }
    ensures kept { (plan : Plan) → Runs plan state.old → OnOk result (IsKept plan state.new) }
{
    frames_have_instances();
    tables_are_handles();
    let Some(index) = one_i32(args) else {
        return Err(Trap::CoreShape);
    };
    if !may_leave(top) {
        return Err(Trap::MayNotLeave);
    }
    let instance = actor(top);
    let table = &state.tables[instance as usize];
    let handle = match find(table, index, resource) {
        Ok(handle) => handle,
        Err(fault) => return Err(trap_of_handle(fault)),
    };
    let dropped = Dropped {
        instance,
        index,
        resource,
        handle,
    };
    match handle.kind {
        HandleKind::Owned => drop_owned(state, destructor, &dropped, values),
        HandleKind::Borrowed { call } => {
            drop_borrowed(state, call, &dropped);
            values.clear();
            Ok(Outcome::Resume { instance })
        }
    }
}
