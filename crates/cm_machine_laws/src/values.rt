//! What becomes of the values of calls, as laws: each function here does nothing, and its contract
//! is the law.

ghost use Rattle.std.specs.Prelude.{◌≤◌, List, length, ℕ};
ghost use Rattle.cm_types.specs.Types.{Ty};
ghost use Rattle.cm_types.specs.Values.{Val};
ghost use Rattle.cm_abi_model.specs.Parts.{handle_count};
ghost use Rattle.cm_abi_model.specs.Receives.{leaves_in};
ghost use Rattle.cm_machine_model.specs.History.{IsHistoryOf, Occurrence};
ghost use Rattle.cm_machine_model.specs.Plan.{Plan};
ghost use Rattle.cm_machine_model.specs.State.{State};
ghost use Rattle.cm_machine_laws.specs.Always.{Always};
ghost use Rattle.cm_machine_laws.specs.Asks.{AsksForWhatTheValueWants};
ghost use Rattle.cm_machine_laws.specs.Bounds.{KeepsFew};
ghost use Rattle.cm_machine_laws.specs.Doing.{doing};
ghost use Rattle.cm_machine_laws.specs.Entries.{PostReturnGetsTheFlatResult, ReceivesWhatWasSent};
ghost use Rattle.cm_machine_laws.specs.Entries.{ResumesWithWhatWasReturned};
ghost use Rattle.cm_machine_laws.specs.Following.{AreFollowed};

use crate::told_laws::histories_are_told;
use crate::valid_laws::{histories_are_valid, one_value_is_carried};
use cm_abi_model::laws::what_is_received_stays;

/// A value of a type has no more handles than are counted in it.
pub fn handles_are_counted()
    ensures { (t : Ty) (v : Val) → length (leaves_in t v) ≤ handle_count v }
{}

/// What goes on is followed along each history: of each call one value was sent, which is on its
/// way while arguments are placed, and so is the one that was returned while a result is.
pub fn values_are_followed()
    ensures { (plan : Plan) (pages : List ℕ) (h : List Occurrence) (s : State)
        → IsHistoryOf plan pages h s → AreFollowed s (doing plan h) }
{
    one_value_is_carried();
    histories_are_valid();
    histories_are_told();
}

/// Values that are passed, in each history of each set that can be linked, whatever its guests do.
///
/// Where a body begins, it is the latest call's, and the value that was sent at that call is
/// received, each part at the last answer for it. A caller goes on with what its callee's body
/// returned: it receives that value, and the core values that it gets back are the result's. A
/// callee tidies up with the core values that its body returned. Allocators are asked for what the
/// value asks for, in order, and for all of it. Of a value on its way no more is kept than it has
/// parts and handles, and no more is lent for it.
pub fn values_are_passed()
    ensures entries { Always ReceivesWhatWasSent }
    ensures resumptions { Always ResumesWithWhatWasReturned }
    ensures tidies { Always PostReturnGetsTheFlatResult }
    ensures asks { Always AsksForWhatTheValueWants }
    ensures bounded { Always KeepsFew }
{
    what_is_received_stays();
    one_value_is_carried();
    histories_are_valid();
    histories_are_told();
    values_are_followed();
}
