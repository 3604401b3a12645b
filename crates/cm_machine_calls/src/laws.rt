//! What holds of handle tables on a value's way, as laws: each function here does nothing, and its
//! contract is the law.

ghost use Rattle.std.specs.Prelude.{◌≡◌, ◌≤◌, ℕ, List};
ghost use Rattle.cm_types.specs.Values.{HandleValue};
ghost use Rattle.cm_handles.specs.Borrows.{borrows_of};
ghost use Rattle.cm_handles.specs.Handles.{Handles, IsSoundHandles};
ghost use Rattle.cm_abi_model.specs.Taken.{Met, after_met};
ghost use Rattle.cm_machine_laws.specs.Taking.{AreTaken};

use cm_handles::laws::borrows_are_counted;

/// What is lifted changes no count of borrows.
pub(crate) fn lifts_keep_borrows()
    ensures { (t : Handles) (ms : List Met) (hs : List HandleValue) (call : ℕ) → AreTaken t ms hs
        → borrows_of call (after_met t ms) ≡ borrows_of call t }
{
    borrows_are_counted();
}

/// A sound table has at most 65,536 borrows.
pub(crate) fn few_borrows()
    ensures { (call : ℕ) (t : Handles) → IsSoundHandles t → borrows_of call t ≤ 65536 }
{}
