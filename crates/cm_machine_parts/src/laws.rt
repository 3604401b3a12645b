//! What the state of a running set has, as laws: each function here does nothing, and its contract
//! is the law.

ghost use Rattle.std.specs.Prelude.{◌≡◌, ◌≢◌, ◌<◌, ◌∷◌, ℕ, List, Some, length, slice_index_or};
ghost use Rattle.std.specs.Prelude.{slice_set};
ghost use Rattle.cm_handles.specs.Borrows.{borrows_of};
ghost use Rattle.cm_handles.specs.Handles.{Handles, TableState};
ghost use Rattle.cm_machine_model.specs.declared.frame.Frame.{Frame};
ghost use Rattle.cm_machine_model.specs.Plan.{Plan};
ghost use Rattle.cm_machine_model.specs.Stack.{actor, below_top, top_of};
ghost use Rattle.cm_machine_model.specs.State.{State, table_at};
ghost use Rattle.cm_machine_model.specs.Valid.{IsStack, IsValidState, frame_at};
ghost use Rattle.cm_machine_parts.specs.declared.passing.Passing.{Passing};
ghost use Rattle.cm_machine_parts.specs.declared.state.State.{State as CodedState};
ghost use Rattle.cm_machine_parts.specs.Kept.{AreBorrowsCounted, CanEnd, IsCountAt};
ghost use Rattle.cm_machine_parts.specs.Kept.{IsEncodedAtTop, Runs};
ghost use Rattle.cm_machine_parts.specs.States.{handles_in};

use cm_handles::laws::borrows_are_counted;

/// Who acts is one of the instances, and a frame stands at a place below their number. No handle is
/// borrowed for a call that is not there yet.
pub fn frames_have_instances()
    ensures places { (fs : List Frame) (place : ℕ) (f : Frame) → frame_at fs place ≡ Some f
        → place < length fs }
    ensures acts { (plan : Plan) (s : State) (top : Frame) → IsValidState plan s
        → top_of s.stack ≡ Some top → actor top < length s.tables }
    ensures unborrowed { (plan : Plan) (s : State) (i : ℕ) → IsValidState plan s
        → borrows_of (length s.stack) (table_at s.tables i) ≡ 0 }
{
    borrows_are_counted();
}

/// Where a set runs, the call on top can end.
pub fn calls_can_end()
    ensures { (plan : Plan) (s : CodedState) → Runs plan s → 0 < length s.stack.frames → CanEnd s }
{}

/// What is kept stays as frames come and go: a frame is pushed for which nothing is borrowed yet,
/// or the one on top goes. It stays where a table changes with as many borrows for each call, and
/// where the number of one place changes with the table of its frame.
pub fn what_is_kept_stays()
    ensures pushed { (borrows : List ℕ) (f : Frame) (fs : List Frame) (tables : List Handles)
        → AreBorrowsCounted borrows fs tables → length fs < length borrows
        → borrows_of (length fs) (table_at tables f.instance) ≡ 0
        → AreBorrowsCounted (slice_set borrows (length fs) 0) (f ∷ fs) tables }
    ensures popped { (borrows : List ℕ) (fs : List Frame) (old new : List Handles)
        → AreBorrowsCounted borrows fs old
        → ((call i : ℕ) → borrows_of call (table_at new i) ≡ borrows_of call (table_at old i))
        → AreBorrowsCounted borrows (below_top fs) new }
    ensures changed { (borrows : List ℕ) (fs : List Frame) (tables : List Handles) (i : ℕ)
        (t : Handles) → AreBorrowsCounted borrows fs tables
        → ((call : ℕ) → borrows_of call t ≡ borrows_of call (table_at tables i))
        → AreBorrowsCounted borrows fs (slice_set tables i t) }
    ensures counted { (borrows : List ℕ) (fs : List Frame) (tables : List Handles) (i : ℕ)
        (t : Handles) (place n : ℕ) → AreBorrowsCounted borrows fs tables
        → place < length borrows → i < length tables → IsCountAt fs place i t n
        → ((call : ℕ) → call ≢ place → borrows_of call t ≡ borrows_of call (table_at tables i))
        → AreBorrowsCounted (slice_set borrows place n) fs (slice_set tables i t) }
    ensures leaves { (plan : Plan) (p : Passing) (fs : List Frame) → IsStack plan fs
        → IsEncodedAtTop plan p (below_top fs) }
{}

/// A table of the code that changes is that of its instance.
pub fn tables_are_handles()
    ensures changed { (ts : List TableState) (i : ℕ) (t : TableState)
        → handles_in (slice_set ts i t) ≡ slice_set (handles_in ts) i t.handles }
    ensures read { (ts : List TableState) (i : ℕ) (t : TableState) → i < length ts
        → t ≡ slice_index_or ts i t → table_at (handles_in ts) i ≡ t.handles }
    ensures same { (tables : List Handles) (i : ℕ) (t : Handles) → i < length tables
        → table_at (slice_set tables i t) i ≡ t }
    ensures other { (tables : List Handles) (i j : ℕ) (t : Handles) → j ≢ i
        → table_at (slice_set tables i t) j ≡ table_at tables j }
    ensures count { (ts : List TableState) → length (handles_in ts) ≡ length ts }
{}
