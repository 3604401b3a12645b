//! What running a program means, as laws: each function here does nothing, and its contract is the
//! law.

ghost use Rattle.std.specs.Prelude.{◌≡◌, ◌+◌, ◌^◌, ◌<◌, List, Ok, drop, slice_index, ℕ};
ghost use Rattle.cm_types.specs.Values.{Val};
ghost use Rattle.cm_types.specs.declared.core_value.CoreValue.{CoreValue};
ghost use Rattle.cm_layout.specs.Shapes.{LayoutTy, Shape};
ghost use Rattle.cm_abi_model.specs.declared.encoding.StringEncoding.{StringEncoding};
ghost use Rattle.cm_abi_model.specs.Stores.{Given};
ghost use Rattle.cm_abi_load.specs.Outcomes.{State, mapped};
ghost use Rattle.cm_abi_load.specs.Reading.{Source, read_at};
ghost use Rattle.cm_abi_load.specs.Records.{records_at};
ghost use Rattle.cm_abi_load.specs.Sized.{IsSized};
ghost use Rattle.cm_abi_lift.specs.FlatReading.{IsFlatReadable, read_flat, read_passed};
ghost use Rattle.cm_abi_lift.specs.FlatRecords.{flat_records, passed_records};
ghost use Rattle.cm_abi_running.specs.Checking.{all_checked, in_memory, in_slots};
ghost use Rattle.cm_abi_running.specs.Checking.{passed_checked};
ghost use Rattle.cm_abi_programs.specs.Checks.{checks_of, flat_checks_of, passed_checks_of};
ghost use Rattle.cm_abi_model.specs.Numbers.{number_at, wrapped_at};
ghost use Rattle.cm_abi_model.specs.Stores.{bytes_of, placed};
ghost use Rattle.cm_abi_running.specs.Passing.{all_passed, case_passed, lowered_as, number_passed};
ghost use Rattle.cm_abi_running.specs.Passing.{passed_on, passed_then};
ghost use Rattle.cm_abi_programs.specs.Puts.{CasePuts, Put, Puts, cases_puts, moved_put, puts_of};
ghost use Rattle.cm_abi_programs.specs.Puts.{row_puts, with_placed, with_put};
ghost use Rattle.cm_abi_running.specs.Putting.{all_written, case_written, stored_as, written};
ghost use Rattle.cm_abi_running.specs.Putting.{written_bytes, written_each, written_then};
ghost use Rattle.cm_abi_programs.specs.SlotPuts.{CaseSlotPuts, SlotPut, SlotPuts, both_slots};
ghost use Rattle.cm_abi_programs.specs.SlotPuts.{cases_slots, flat_puts_of, moved_slot};
ghost use Rattle.cm_abi_programs.specs.SlotPuts.{placed_slots};

/// Running the checks of a type is lifting by the type: it comes to the same end, with the same
/// first fault, the same content left and the same handles met, and it keeps the records of the
/// value's parts.
pub fn running_checks_is_lifting()
    ensures { (w : Source) (target : StringEncoding) (x : Shape) (p : ℕ) (s : State)
        → all_checked w target (in_memory w.memory) (checks_of x) p s
        ≡ mapped (records_at w target x p) (read_at w x p s) }
{}

/// So it is over the core values that pass a value, and over what a call passes: in core values, or
/// at a pointer where these would be too many.
pub fn running_checks_is_lifting_flat()
    ensures value { (w : Source) (target : StringEncoding) (slots : List CoreValue) (x : Shape)
        (k : ℕ) (s : State)
        → all_checked w target (in_slots slots) (flat_checks_of x) k s
        ≡ mapped (flat_records w target x (drop k slots)) (read_flat w x (drop k slots) s) }
    ensures call { (w : Source) (target : StringEncoding) (limit : ℕ) (l : LayoutTy)
        (slots : List CoreValue) (s : State)
        → passed_checked w target limit l.head (passed_checks_of limit l) slots s
        ≡ mapped (passed_records w target limit l slots) (read_passed w limit l slots s) }
{}

/// Where a value is read at an address, running the puts of its type from there is storing the
/// value: the same bytes in the same order, each at the same address, and the part and the handle
/// that come next are those behind the value's.
pub fn running_puts_is_storing()
    ensures { (w : Source) (g : Given) (x : Shape) (p q k h : ℕ) (s after : State) (v : Val)
        → ((i : ℕ) → slice_index w.memory i < 2 ^ 8) → IsSized x
        → read_at w x p s ≡ Ok (v, after)
        → all_written w g (puts_of x) p q k h ≡ stored_as g x v q k h }
{}

/// Where a value is read from core values, running the puts of its type over them is lowering it:
/// the same numbers in the same core values, the same bytes behind them, and the part and the
/// handle that come next are those behind the value's.
pub fn running_puts_is_lowering()
    ensures { (w : Source) (g : Given) (slots : List CoreValue) (x : Shape) (k n h : ℕ)
        (s after : State) (v : Val)
        → ((i : ℕ) → slice_index w.memory i < 2 ^ 8) → IsFlatReadable x
        → read_flat w x (drop k slots) s ≡ Ok (v, after)
        → all_passed w g slots (flat_puts_of x) k n h ≡ lowered_as g x v k n h }
{}

/// Puts that are listed together are run in turn: one behind others, one of a value that begins so
/// far behind, and those of a field, of values in a row and of cases.
pub fn puts_run_in_turn()
    ensures behind { (w : Source) (g : Given) (cs : Puts) (d : Put) (p q k h : ℕ)
        → all_written w g (with_put cs d) p q k h
        ≡ written_then (all_written w g cs p q k h) (written w g d p q) }
    ensures moved { (w : Source) (g : Given) (o : ℕ) (d : Put) (p q k h : ℕ)
        → written w g (moved_put o d) p q k h ≡ written w g d (p + o) (q + o) k h }
    ensures placed { (w : Source) (g : Given) (o : ℕ) (cs ds : Puts) (p q k h : ℕ)
        → all_written w g (with_placed o cs ds) p q k h
        ≡ written_then (all_written w g cs p q k h) (all_written w g ds (p + o) (q + o)) }
    ensures row { (w : Source) (g : Given) (d n : ℕ) (cs : Puts) (p q k h : ℕ)
        → all_written w g (row_puts d n cs) p q k h
        ≡ written_each (all_written w g cs) d n p q k h }
    ensures cases { (w : Source) (g : Given) (b d : ℕ) (cs : CasePuts) (p q k h : ℕ)
        → ((i : ℕ) → slice_index w.memory i < 2 ^ 8)
        → all_written w g (cases_puts b d cs) p q k h
        ≡ written_then (written_bytes (placed q (bytes_of b (number_at b w.memory p))) k h)
        (case_written w g cs (number_at b w.memory p) (p + d) (q + d)) }
{}

/// So it is over core values.
pub fn slot_puts_run_in_turn()
    ensures moved { (w : Source) (g : Given) (slots : List CoreValue) (o : ℕ) (d : SlotPut)
        (s k h : ℕ) → passed_on w g slots (moved_slot o d) s k h
        ≡ passed_on w g slots d (s + o) k h }
    ensures both { (w : Source) (g : Given) (slots : List CoreValue) (cs ds : SlotPuts)
        (s k h : ℕ) → all_passed w g slots (both_slots cs ds) s k h
        ≡ passed_then (all_passed w g slots cs s k h) (all_passed w g slots ds s) }
    ensures placed { (w : Source) (g : Given) (slots : List CoreValue) (o : ℕ) (cs : SlotPuts)
        (s k h : ℕ) → all_passed w g slots (placed_slots o cs) s k h
        ≡ all_passed w g slots cs (s + o) k h }
    ensures cases { (w : Source) (g : Given) (slots : List CoreValue) (cs : CaseSlotPuts)
        (s k h : ℕ) → all_passed w g slots (cases_slots cs) s k h
        ≡ passed_then (number_passed s (wrapped_at 4 slots s) k h)
        (case_passed w g slots cs (wrapped_at 4 slots s) (s + 1)) }
{}
