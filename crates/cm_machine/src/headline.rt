//! What holds of every history of a linked set.

ghost use Rattle.cm_machine_laws.specs.Always.{Always};
ghost use Rattle.cm_machine_laws.specs.Answers.{EventAnswersItsMove};
ghost use Rattle.cm_machine_laws.specs.Asks.{AsksForWhatTheValueWants};
ghost use Rattle.cm_machine_laws.specs.Bounds.{KeepsFew};
ghost use Rattle.cm_machine_laws.specs.Closing.{NamesFaults, TrapHasItsCauseAndCloses};
ghost use Rattle.cm_machine_laws.specs.Closing.{TrapsAtACause};
ghost use Rattle.cm_machine_laws.specs.Entries.{PostReturnGetsTheFlatResult, ReceivesWhatWasSent};
ghost use Rattle.cm_machine_laws.specs.Entries.{ResumesWithWhatWasReturned};
ghost use Rattle.cm_machine_laws.specs.FreeIndices.{NextIndexIsTheLastFreed};
ghost use Rattle.cm_machine_laws.specs.Going.{ActsAsTold, BeginsByCall, BeginsWhereNothingGoesOn};
ghost use Rattle.cm_machine_laws.specs.Going.{ClosesByTraps, EndsWhereNothingGoesOn};
ghost use Rattle.cm_machine_laws.specs.Going.{NoneClosedActs};
ghost use Rattle.cm_machine_laws.specs.Going.{RefusesBegins, RunsExtend, StandsAsTold};
ghost use Rattle.cm_machine_laws.specs.Going.{StartsAlways};
ghost use Rattle.cm_machine_laws.specs.HandleChanges.{HandlesChangeByTheirMoves};
ghost use Rattle.cm_machine_laws.specs.Lent.{BorrowsStand, LendsStand};
ghost use Rattle.cm_machine_laws.specs.MemoryChanges.{MemoryChangesByMovesAndValues};
ghost use Rattle.cm_machine_laws.specs.Placed.{KeepsGone, EachResourceHasOnePlace};

use cm_machine_laws::handles::handles_change_as_told;
use cm_machine_laws::memories::memory_changes_as_told;
use cm_machine_laws::owners::owners_are_told;
use cm_machine_laws::told_laws::what_goes_on;
use cm_machine_laws::traps::traps_have_their_causes;
use cm_machine_laws::values::values_are_passed;

/// The headline, a clause a sentence: for each set that can be linked, and each history of it from
/// `Set::new` on, whatever the guests did. The clauses of `Set::new`, `Set::begin`, `Set::step`,
/// `Set::run` and `Player::drive` say by the same definitions that what the program does is such a
/// history.
pub fn headline()
    // The instance that acts is the one that the last event named.
    ensures acting { Always ActsAsTold }
    // The frames that stand are what goes on by the events.
    ensures standing { Always StandsAsTold }
    // A set starts with the memories of zeros that were asked for, with no handles, and open.
    ensures starts { StartsAlways }
    // A host begins a root call where nothing goes on, in an instance that is there and open.
    ensures begins { Always BeginsWhereNothingGoesOn }
    // It is refused for its reason, and for none where there is none.
    ensures begin_refusals { Always RefusesBegins }
    // Each move is answered by its own event, or traps.
    ensures answers { Always EventAnswersItsMove }
    // An event is a last one exactly where nothing goes on after it.
    ensures ends { Always EndsWhereNothingGoesOn }
    // No instance closes but by a trap, and none opens again.
    ensures closes { Always ClosesByTraps }
    // The instance that acts is there and open.
    ensures none_closed_acts { Always NoneClosedActs }
    // More goes on only where the instance that acts may call, in an open instance, and where there
    // is room.
    ensures begins_by_call { Always BeginsByCall }
    // Where a body begins, the callee has received the value that the caller's state denoted at the
    // call: its state denotes it too, but for borrows that it gets as representations.
    ensures entries { Always ReceivesWhatWasSent }
    // Where a call ends, the caller has received the result that the callee's state denoted at its
    // return.
    ensures resumptions { Always ResumesWithWhatWasReturned }
    // What tidies up behind a call gets the core values that the body returned.
    ensures tidies { Always PostReturnGetsTheFlatResult }
    // Allocators are asked for exactly what the value asks for, in order.
    ensures asks { Always AsksForWhatTheValueWants }
    // Of a value on its way no more is kept than it has parts and handles, with at most three
    // members for each in all lists together; where none is on its way, no list has a member.
    ensures bounded { Always KeepsFew }
    // A memory changes by writes and growths of its own instance, and where a value is handed over:
    // there inside the regions that were answered, by the bytes of the value alone.
    ensures memory { Always MemoryChangesByMovesAndValues }
    // Handles come, go and come back by the moves that say so, and by no others.
    ensures handles { Always HandlesChangeByTheirMoves }
    // A new handle gets the index that was freed last of those that are free still, else the least
    // from 1 on that was never used.
    ensures next_index { Always NextIndexIsTheLastFreed }
    // Each resource has exactly one place.
    ensures one_place { Always EachResourceHasOnePlace }
    // What was dropped or lost stays so, and no serial number is issued twice.
    ensures stays_gone { Always KeepsGone }
    // What is lent is lent to a call that goes on, as it borrowed it.
    ensures lends_stand { Always LendsStand }
    // Each borrowed handle is of a call whose body runs, and none dangles.
    ensures borrows_stand { Always BorrowsStand }
    // A trap has its named cause, the first one; it closes exactly the instances of what went on,
    // loses what was on its way, and leaves memories and all other handles alone.
    ensures traps { Always TrapHasItsCauseAndCloses }
    // A move for which a cause is there ends in the trap of the first one, or finds no memory.
    ensures refusals { Always TrapsAtACause }
    // What is wrong with a value is named by the trap of its own name.
    ensures names { NamesFaults }
    // What a run did extends the history by its moves and events.
    ensures runs { RunsExtend }
{
    what_goes_on();
    values_are_passed();
    memory_changes_as_told();
    handles_change_as_told();
    owners_are_told();
    traps_have_their_causes();
}
