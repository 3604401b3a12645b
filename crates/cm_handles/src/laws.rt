//! What holds of every handle table, as laws: each function here does nothing, and its contract is
//! the law.

ghost use Rattle.std.specs.Prelude.{◌≡◌, ◌≢◌, ◌↔◌, ℕ, ◌+◌, ◌-◌, ◌<◌, Some};
ghost use Rattle.cm_handles.specs.Borrows.{borrows_by, borrows_of};
ghost use Rattle.cm_handles.specs.Changes.{AddsTo, ClosesAll, ReleasesFrom, WritesLends};
ghost use Rattle.cm_handles.specs.Handles.{Handles, IsSoundHandles, handle_at, indices_left};
ghost use Rattle.cm_handles.specs.Handles.{after_add, after_close, after_lend, after_release};
ghost use Rattle.cm_handles.specs.Handles.{after_unlend};
ghost use Rattle.cm_handles.specs.declared.handle.Handle.{Handle};
ghost use Rattle.cm_handles.specs.declared.handle.HandleKind.TheVariants.{Borrowed};

use crate::table::MAX_HANDLES;

/// A table has at most 65,535 handles.
pub fn greatest_index()
    ensures { MAX_HANDLES ≡ 65535 }
{}

/// Each change of a sound table keeps it sound, and changes what stands at one index alone; a close
/// changes what stands at each index by itself.
pub fn tables_change_in_one_place()
    ensures add { (t : Handles) (h : Handle) → IsSoundHandles t → 0 < indices_left t
        → AddsTo t h }
    ensures release { (t : Handles) (index : ℕ) (h : Handle) → IsSoundHandles t
        → handle_at t index ≡ Some h → ReleasesFrom t index }
    ensures lend { (t : Handles) (index : ℕ) (h : Handle) → IsSoundHandles t
        → handle_at t index ≡ Some h
        → WritesLends t (after_lend t index) index h (h.lends + 1) }
    ensures unlend { (t : Handles) (index : ℕ) (h : Handle) → IsSoundHandles t
        → handle_at t index ≡ Some h
        → WritesLends t (after_unlend t index) index h (h.lends - 1) }
    ensures close { (t : Handles) → IsSoundHandles t → ClosesAll t }
{}

/// How each change of a table changes the number of handles that are borrowed for a call: one more
/// where a borrow for the call is added, one less where it goes, the same where lends change, and
/// none after a close. No handle is borrowed for a call exactly where the number is 0.
pub fn borrows_are_counted()
    ensures add { (t : Handles) (h : Handle) (call : ℕ) → IsSoundHandles t
        → borrows_of call (after_add t h) ≡ borrows_of call t + borrows_by call h }
    ensures release { (t : Handles) (index : ℕ) (h : Handle) (call : ℕ)
        → handle_at t index ≡ Some h
        → borrows_of call (after_release t index) + borrows_by call h ≡ borrows_of call t }
    ensures lend { (t : Handles) (index call : ℕ)
        → borrows_of call (after_lend t index) ≡ borrows_of call t }
    ensures unlend { (t : Handles) (index call : ℕ)
        → borrows_of call (after_unlend t index) ≡ borrows_of call t }
    ensures close { (t : Handles) (call : ℕ) → borrows_of call (after_close t) ≡ 0 }
    ensures none { (t : Handles) (call : ℕ) → (borrows_of call t ≡ 0)
        ↔ ((index : ℕ) (h : Handle) → handle_at t index ≡ Some h → h.kind ≢ Borrowed call) }
{}
