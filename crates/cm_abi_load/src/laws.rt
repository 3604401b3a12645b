//! What reading means, as laws: each function here does nothing, and its contract is the law.

ghost use Rattle.std.specs.Prelude.{◌≡◌, ◌<◌, ◌≤◌, List, Ok, ℕ};
ghost use Rattle.cm_types.specs.Types.{Ty};
ghost use Rattle.cm_types.specs.Values.{Val};
ghost use Rattle.cm_handles.specs.Handles.{Handles};
ghost use Rattle.cm_layout.specs.declared.heads.Head.{Head};
ghost use Rattle.cm_layout.specs.declared.layouts.HandleType.{HandleType};
ghost use Rattle.cm_layout.specs.declared.layouts.Leaf.{Leaf};
ghost use Rattle.cm_layout.specs.Shapes.{Shape, shape_of_type};
ghost use Rattle.cm_layout.specs.Sizes.{align_of};
ghost use Rattle.cm_abi_model.specs.declared.encoding.StringEncoding.{StringEncoding};
ghost use Rattle.cm_abi_model.specs.Shows.{Shows};
ghost use Rattle.cm_abi_model.specs.Taken.{content_of, met_at};
ghost use Rattle.cm_abi_model.specs.Views.{View};
ghost use Rattle.cm_abi_load.specs.Meeting.{Meets};
ghost use Rattle.cm_abi_load.specs.Outcomes.{State};
ghost use Rattle.cm_abi_load.specs.PartLaws.{BorrowIsRead, BorrowIsShown, ElementsAreRead};
ghost use Rattle.cm_abi_load.specs.PartLaws.{ElementsAreShown, MeetingsJoin, NothingIsMet};
ghost use Rattle.cm_abi_load.specs.PartLaws.{OwnIsRead, OwnIsShown, TextIsRead, TextIsShown};
ghost use Rattle.cm_abi_load.specs.Making.{KeepsHandles};
ghost use Rattle.cm_abi_load.specs.Reading.{Source, leaf_value, read_at, read_elements};
ghost use Rattle.cm_abi_load.specs.Reading.{read_handle};
ghost use Rattle.cm_abi_load.specs.Reading.{read_text, seen_by};
ghost use Rattle.cm_abi_load.specs.Sized.{IsSized};

/// In the layout of a type each number has a size that numbers have, and each alignment is some.
pub fn numbers_are_sized()
    ensures sized { (t : Ty) → IsSized (shape_of_type t) }
    ensures aligned { (t : Ty) → 0 < align_of t }
{}

/// What is read at an address is what the bytes there show; its bytes were taken from those that
/// may still come, and its tags and its handles were met in reading order, each handle as wanted.
pub fn what_is_read_is_shown()
    ensures shown { (w : View) (t : Ty) (p : ℕ) (s after : State) (v : Val)
        → read_at (seen_by w) (shape_of_type t) p s ≡ Ok (v, after) → Shows w t p v }
    ensures met { (w : View) (t : Ty) (p : ℕ) (s after : State) (v : Val)
        → read_at (seen_by w) (shape_of_type t) p s ≡ Ok (v, after)
        → Meets w.table s after (met_at w t p v) }
{}

/// Bytes that show a value whose content is within what may still come are read as that value. So
/// a fault is met only where no value is shown, or where one has more content.
pub fn what_is_shown_is_read()
    ensures { (w : View) (t : Ty) (p : ℕ) (s : State) (v : Val)
        → Shows w t p v → content_of (met_at w t p v) ≤ s.left
        → (after : State) × (read_at (seen_by w) (shape_of_type t) p s ≡ Ok (v, after)) }
{}

/// Of the parts of a value, which may be read one after another, what is read of each is shown, and
/// the reader's state says what was met in it.
pub fn parts_that_are_read_are_shown()
    ensures text { TextIsShown }
    ensures elements { ElementsAreShown }
    ensures own { OwnIsShown }
    ensures borrow { BorrowIsShown }
    ensures nothing { NothingIsMet }
    ensures both { MeetingsJoin }
{}

/// The other way: each part that is shown, within what may still come, is read.
pub fn parts_that_are_shown_are_read()
    ensures text { TextIsRead }
    ensures elements { ElementsAreRead }
    ensures own { OwnIsRead }
    ensures borrow { BorrowIsRead }
{}

/// Handles that a reader has met stay met, whatever it reads next: a value of any shape in memory,
/// or what core values pass of one, a number, a string, the elements of a list, a handle.
pub fn handles_stay_met()
    ensures value { (w : Source) (shape : Shape) (p : ℕ) (s : State)
        → KeepsHandles s (read_at w shape p s) }
    ensures leaf { (k : Leaf) (n : ℕ) (s : State) → KeepsHandles s (leaf_value k n s) }
    ensures text { (memory : List ℕ) (e : StringEncoding) (at n : ℕ) (s : State)
        → KeepsHandles s (read_text memory e at n s) }
    ensures elements { (w : Source) (shape : Shape) (memory : List ℕ) (e : Head) (at n : ℕ)
        (s : State) → KeepsHandles s (read_elements (read_at w shape) memory e at n s) }
    ensures handle { (table : Handles) (t : HandleType) (index : ℕ) (s : State)
        → KeepsHandles s (read_handle table t index s) }
{}
