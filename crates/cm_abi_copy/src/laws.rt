//! What copying means, as laws: each function here does nothing, and its contract is the law.

ghost use Rattle.std.specs.Prelude.{◌≡◌, ◌+◌, ◌++◌, List, length, map, ℕ};
ghost use Rattle.cm_types.specs.Types.{Fields, Ty};
ghost use Rattle.cm_types.specs.Values.{Val};
ghost use Rattle.cm_types.specs.declared.core_value.CoreValue.{CoreValue};
ghost use Rattle.cm_layout.specs.Shapes.{Shape};
ghost use Rattle.cm_abi_model.specs.declared.encoding.StringEncoding.{StringEncoding};
ghost use Rattle.cm_abi_model.specs.Denotes.{Denotes};
ghost use Rattle.cm_abi_model.specs.Parts.{handle_count, part_count, parts_in};
ghost use Rattle.cm_abi_model.specs.Requests.{call_parts, stored_charset};
ghost use Rattle.cm_abi_model.specs.Shows.{Shows};
ghost use Rattle.cm_abi_model.specs.Stores.{Given};
ghost use Rattle.cm_abi_model.specs.Views.{View, Way};
ghost use Rattle.cm_abi_running.specs.Copying.{Copying, shown_to, size_kept};
ghost use Rattle.cm_abi_running.specs.Known.{CanBeCopied, HasSizes, first_part};
ghost use Rattle.cm_abi_copy.specs.PartLaws.{ElementsAreCopied, TextIsCopied};
ghost use Rattle.cm_abi_running.specs.Ready.{IsReady};
ghost use Rattle.cm_abi_running.specs.Shown.{without_handles};
ghost use Rattle.cm_abi_model.specs.declared.record.PartRecord.{PartRecord};
ghost use Rattle.cm_abi_model.specs.Telling.{TellAll};
ghost use Rattle.cm_abi_store.specs.Storing.{stored_by};

use cm_abi_load::laws::parts_that_are_read_are_shown;

/// A value that can be copied is the one that the source shows, but for its handles; and what
/// copying asks for is there.
pub fn what_is_read_is_copied()
    ensures shown { (n : ℕ) (c : Copying) (sh : Shape) (p : ℕ) (v : Val) (k h : ℕ)
        → CanBeCopied n c sh p v k h → shown_to c sh p ≡ without_handles v }
    ensures ready { (n : ℕ) (c : Copying) (sh : Shape) (p : ℕ) (v : Val) (k h : ℕ)
        → CanBeCopied n c sh p v k h → IsReady n c sh p k h }
{
    parts_that_are_read_are_shown();
}

/// What is stored of a value tells of its handles no more than the numbers that they were given;
/// nor do the counts of its parts and handles.
pub fn handles_are_stored_as_numbers()
    ensures bytes { (g : Given) (sh : Shape) (v : Val) (p k h : ℕ)
        → stored_by g sh (without_handles v) p k h ≡ stored_by g sh v p k h }
    ensures parts { (v : Val) → part_count (without_handles v) ≡ part_count v }
    ensures handles { (v : Val) → handle_count (without_handles v) ≡ handle_count v }
{}

/// A string, and the elements of a list, that are read at a pointer are copied.
pub fn parts_that_are_read_are_copied()
    ensures text { TextIsCopied }
    ensures elements { ElementsAreCopied }
{
    parts_that_are_read_are_shown();
}

/// The sizes in records that tell the parts of a value that bytes show, wherever they begin among
/// others, are those of the bytes that its strings take where they are stored; so it is of what a
/// call passes, the tuple of which is the first part where it is spilled.
pub fn records_tell_sizes()
    ensures value { (w : View) (target : StringEncoding) (t : Ty) (p : ℕ) (v : Val)
        (before rs after : List PartRecord) (places : List ℕ) → Shows w t p v
        → TellAll w target rs (parts_in t v) places
        → HasSizes (map size_kept (before ++ (rs ++ after))) (stored_charset target) v
        (length before) }
    ensures call { (w : View) (target : StringEncoding) (way : Way) (types : Fields)
        (slots : List CoreValue) (v : Val) (rs : List PartRecord) (places : List ℕ)
        → Denotes w way types slots v → TellAll w target rs (call_parts way types v) places
        → HasSizes (map size_kept rs) (stored_charset target) v (first_part way types) }
{}
