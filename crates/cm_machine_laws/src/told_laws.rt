//! What goes on in a set is what its events tell, as laws: each function here does nothing, and its
//! contract is the law.

ghost use Rattle.std.specs.Prelude.{List};
ghost use Rattle.std.specs.Prelude.{ℕ};
ghost use Rattle.cm_machine_model.specs.History.{IsHistoryOf, Occurrence};
ghost use Rattle.cm_machine_model.specs.Plan.{Plan};
ghost use Rattle.cm_machine_model.specs.State.{State};
ghost use Rattle.cm_machine_laws.specs.Acting.{acts};
ghost use Rattle.cm_machine_laws.specs.Always.{Always};
ghost use Rattle.cm_machine_laws.specs.Answers.{EventAnswersItsMove};
ghost use Rattle.cm_machine_laws.specs.Doing.{doing};
ghost use Rattle.cm_machine_laws.specs.Going.{ActsAsTold, BeginsByCall, BeginsWhereNothingGoesOn};
ghost use Rattle.cm_machine_laws.specs.Going.{ClosesByTraps, EndsWhereNothingGoesOn};
ghost use Rattle.cm_machine_laws.specs.Going.{NoneClosedActs};
ghost use Rattle.cm_machine_laws.specs.Going.{RefusesBegins, RunsExtend, StandsAsTold};
ghost use Rattle.cm_machine_laws.specs.Going.{StartsAlways};
ghost use Rattle.cm_machine_laws.specs.Matching.{AreTold, StepsAnswer, StepsTell};

use crate::valid_laws::histories_are_valid;

/// Each step keeps the frames as what goes on by the events, and who acts as whom the last event
/// named; and it answers its move by the move's own event, or traps.
pub fn frames_are_told()
    ensures told { StepsTell }
    ensures answers { StepsAnswer }
{}

/// The frames are what goes on by the events, along each history.
pub fn histories_are_told()
    ensures { (plan : Plan) (pages : List ℕ) (h : List Occurrence) (s : State)
        → IsHistoryOf plan pages h s → AreTold plan s (acts h) (doing plan h) }
{
    frames_are_told();
    histories_are_valid();
}

/// What goes on in each history of each set that can be linked, whatever its guests do.
///
/// The instance that acts is the one that the last event named, and the instances whose frames
/// stand are those of what goes on. A set starts with what was asked for; a host begins where
/// nothing goes on, in an open instance, and is refused for its reason else. Each move is answered
/// by its own event, or traps; an event is a last one exactly where nothing goes on after it. No
/// instance closes but by a trap, none opens again, and none that is closed acts. Something more
/// goes on only by a call that may be made. A run extends a history.
pub fn what_goes_on()
    ensures acting { Always ActsAsTold }
    ensures standing { Always StandsAsTold }
    ensures starts { StartsAlways }
    ensures begins { Always BeginsWhereNothingGoesOn }
    ensures begin_refusals { Always RefusesBegins }
    ensures answers { Always EventAnswersItsMove }
    ensures ends { Always EndsWhereNothingGoesOn }
    ensures closes { Always ClosesByTraps }
    ensures none_closed_acts { Always NoneClosedActs }
    ensures begins_by_call { Always BeginsByCall }
    ensures runs { RunsExtend }
{
    frames_are_told();
    histories_are_valid();
    histories_are_told();
}
