//! The end of a call.

ghost use Rattle.std.specs.Prelude.{◌≡◌};
ghost use Rattle.cm_machine_model.specs.Stack.{below_top};
ghost use Rattle.cm_machine_model.specs.Step.{after_call, top_place};
ghost use Rattle.cm_machine_parts.specs.Kept.{AreBorrowsCounted, CanEnd};
ghost use Rattle.cm_machine_parts.specs.Lends.{AreLentAtLeast, tables_after_unlends};
ghost use Rattle.cm_machine_parts.specs.States.{handles_in, state_of};

use crate::state::State;
use cm_handles::Table;
use cm_handles::laws::borrows_are_counted;
use cm_machine_model::state::Lend;

/// Ends these lends, one after another.
fn unlend_all(tables: &mut Vec<Table>, lends: &[Lend])
    requires { AreLentAtLeast lends.now (handles_in tables.old.items) }
    ensures { handles_in tables.new.items
        ≡ tables_after_unlends lends.now (handles_in tables.old.items) }
{
    for lend in lends {
        let table = &mut tables[lend.instance as usize];
        table.unlend(lend.index);
    }
}

/// Ends the call on top: its lends end, and its frame goes.
#[inline(always)]
pub fn end_call(state: &mut State)
    requires { CanEnd state.old }
    ensures ended { state_of state.new
        ≡ after_call (top_place (state_of state.old)) (state_of state.old) }
    ensures below { state.new.stack.frames ≡ below_top state.old.stack.frames }
    ensures passing { state.new.passing ≡ state.old.passing }
    ensures counted { AreBorrowsCounted state.old.stack.borrows state.old.stack.frames
        (state_of state.old).tables
        → AreBorrowsCounted state.new.stack.borrows state.new.stack.frames
        (state_of state.new).tables }
{
    borrows_are_counted();
    let frame = state.stack.len() as u32 - 1;
    let first = state.lends.first_to(frame);
    unlend_all(&mut state.tables, &state.lends.as_slice()[first..]);
    state.lends.truncate(first);
    // The frame is not needed any more.
    let _ = state.stack.pop();
}
