//! What holds of the definitions, as laws: each function here does nothing, and its contract is the
//! law.

ghost use Rattle.std.specs.Prelude.{◌≡◌, ◌↔◌, ◌<◌, ◌≤◌, ℕ, Bool, true, List, [], Some, length};
ghost use Rattle.std.specs.Prelude.{slice_get};
ghost use Rattle.cm_types.specs.declared.core_value.CoreValue.{CoreValue};
ghost use Rattle.cm_handles.specs.Handles.{Handles, IsSoundHandles};
ghost use Rattle.cm_types.specs.Types.{Fields, Ty};
ghost use Rattle.cm_types.specs.Values.{HasType, Val};
ghost use Rattle.cm_abi_model.specs.Denotes.{Denotes};
ghost use Rattle.cm_abi_model.specs.Handed.{IsHanded};
ghost use Rattle.cm_abi_model.specs.Later.{IsLater};
ghost use Rattle.cm_abi_model.specs.Receives.{NoneImplemented, Passes, Receives, Serves};
ghost use Rattle.cm_abi_model.specs.Receives.{call_bytes, leaves_in};
ghost use Rattle.cm_abi_model.specs.Parts.{Part};
ghost use Rattle.cm_abi_model.specs.Regions.{AllAt, AreApart, ArePlaced, IsInPart, part_size};
ghost use Rattle.cm_abi_model.specs.Requests.{HasScalars, last_size, part_sizes};
ghost use Rattle.cm_abi_model.specs.Requests.{call_parts, is_spilled, requests, spilled_request};
ghost use Rattle.cm_abi_model.specs.Requests.{stored_charset, tuple_of};
ghost use Rattle.cm_abi_model.specs.Taken.{AllThere, CanGo, GoesInTurn, Met, Transferable};
ghost use Rattle.cm_abi_model.specs.Taken.{after_met, met};
ghost use Rattle.cm_abi_model.specs.Texts.{Charset};
ghost use Rattle.cm_abi_model.specs.declared.encoding.StringEncoding.{StringEncoding};
ghost use Rattle.cm_abi_model.specs.Shows.{Shows};
ghost use Rattle.cm_abi_model.specs.Stores.{Framed, Given, Holds, poke};
ghost use Rattle.cm_abi_model.specs.Views.{View, Way};
ghost use Rattle.cm_abi_model.specs.Scanned.{GoesOn, OnlyAsked, Scanned};

use cm_handles::laws::tables_change_in_one_place;
use cm_text::laws::one_list_of_scalars;
use cm_text::{Latin1, Utf8, Utf16};

/// In a view, the bytes at an address show at most one value of a type, and core values denote at
/// most one value of the types of a call.
pub fn denotations_are_unique()
    ensures shown { (w : View) (t : Ty) (p : ℕ) (u v : Val) → Shows w t p u → Shows w t p v
        → u ≡ v }
    ensures denoted { (w : View) (way : Way) (types : Fields) (slots : List CoreValue) (u v : Val)
        → Denotes w way types slots u → Denotes w way types slots v → u ≡ v }
{
    one_list_of_scalars::<Utf8>();
    one_list_of_scalars::<Utf16>();
    one_list_of_scalars::<Latin1>();
}

/// Of a memory and of handles there is one value that core values denote: where the memory and the
/// handles of the values are the same, so are the values, whatever the tables are by then. So one
/// value is on its way, from the call to its entry.
pub fn one_value_is_on_its_way()
    ensures { (w u : View) (way : Way) (types : Fields) (slots : List CoreValue) (v x : Val)
        → w.memory ≡ u.memory → w.encoding ≡ u.encoding → Denotes w way types slots v
        → Denotes u way types slots x
        → leaves_in (tuple_of types) v ≡ leaves_in (tuple_of types) x → v ≡ x }
{
    one_list_of_scalars::<Utf8>();
    one_list_of_scalars::<Utf16>();
    one_list_of_scalars::<Latin1>();
}

/// What a receiver has once a value was lowered passes that value, where no handle was passed as
/// its representation: its core values are as many as pass the types, each of its kind, and denote
/// the value. (Where a handle was, its number is no index of the receiver's table.)
pub fn what_is_received_is_denoted()
    ensures { (w : View) (way : Way) (types : Fields) (slots : List CoreValue) (g : Given) (v : Val)
        → Receives w way types slots g v → Serves w way types g v
        → NoneImplemented w (leaves_in (tuple_of types) v) → Passes w way types slots v }
{}

/// What a receiver has of a value it still has while the value's bytes stand: its memory may grow,
/// lends may end, and handles may come and go beside those of the value.
pub fn what_is_received_stays()
    ensures { (w u : View) (way : Way) (types : Fields) (slots : List CoreValue) (g : Given)
        (v : Val) → Receives w way types slots g v → IsLater w u (call_bytes g way types v)
        → Receives u way types slots g v }
{}

/// Encodings in which strings are stored alike place parts alike: what is aligned and inside a
/// memory by one of them is so by the other, also in a longer memory, and what is apart is apart.
pub fn places_are_read_alike()
    ensures placed { (e f : StringEncoding) (n m : ℕ) (g : Given) (k : ℕ) (parts : List Part)
        → stored_charset e ≡ stored_charset f → n ≤ m → ArePlaced e n g k parts
        → ArePlaced f m g k parts }
    ensures apart { (e f : StringEncoding) (g : Given) (k : ℕ) (parts : List Part)
        → stored_charset e ≡ stored_charset f → AreApart e g k parts → AreApart f g k parts }
{}

/// Nothing is asked for exactly where a call passes no part, since some size is asked for each of
/// them. Where what it passes is spilled, the bytes of its tuple are asked for first, in their own
/// size and alignment, and nothing is handed back for them.
pub fn each_part_is_asked_for()
    ensures each { (source target : Charset) (part : Part)
        → 0 < length (part_sizes source target part) }
    ensures none { (way : Way) (types : Fields) (v : Val) (source target : StringEncoding)
        (tags : List Bool) → requests way types v source target tags ≡ []
        ↔ call_parts way types v ≡ [] }
    ensures tuple { (way : Way) (types : Fields) (v : Val) (source target : StringEncoding)
        (tags : List Bool) → is_spilled way types ≡ true
        → slice_get (requests way types v source target tags) 0 ≡ Some (spilled_request types) }
{}

/// The last size that is asked for a part is the size that it takes where it is stored.
pub fn requests_end_exact()
    ensures { (source : Charset) (target : StringEncoding) (part : Part) → HasScalars source part
        → last_size (part_sizes source (stored_charset target) part) ≡ part_size target part }
{}

/// Each byte that a lowering stores lies in the region of one of the parts of the call, where the
/// given places are.
pub fn what_is_stored_lies_in_regions()
    ensures { (way : Way) (types : Fields) (g : Given) (v : Val) (target : StringEncoding)
        → HasType (tuple_of types) v → g.charset ≡ stored_charset target
        → AllAt (IsInPart target g 0 (call_parts way types v)) (call_bytes g way types v) }
{}

/// Where the places are inside a memory and apart, storing a value leaves each of its bytes at its
/// address, and changes no other.
pub fn what_is_stored_stays()
    ensures { (way : Way) (types : Fields) (g : Given) (v : Val) (target : StringEncoding)
        (memory : List ℕ) → HasType (tuple_of types) v → g.charset ≡ stored_charset target
        → ArePlaced target (length memory) g 0 (call_parts way types v)
        → AreApart target g 0 (call_parts way types v)
        → Holds (poke (call_bytes g way types v) memory) (call_bytes g way types v)
        × Framed memory (poke (call_bytes g way types v) memory) (call_bytes g way types v) }
{}

/// A value with no part and no handle takes nothing from its giver: nothing is met in it, so it can
/// always be handed over.
pub fn nothing_is_met_without_parts()
    ensures met { (w : View) (way : Way) (types : Fields) (slots : List CoreValue) (v : Val)
        → call_parts way types v ≡ [] → leaves_in (tuple_of types) v ≡ []
        → met w way types slots v ≡ [] }
    ensures goes { (w : View) (way : Way) (types : Fields) (slots : List CoreValue) (v : Val)
        → call_parts way types v ≡ [] → leaves_in (tuple_of types) v ≡ []
        → Transferable w way types slots v }
{}

/// Where each handle that is met stands, all can be handed over exactly where one thing after
/// another can: looking at one at a time, with the table as it is then, misses nothing.
pub fn handing_over_goes_in_turn()
    ensures { (t : Handles) (most : ℕ) (ms : List Met) → AllThere t ms
        → CanGo t most ms ↔ GoesInTurn t most ms }
{}

/// Each handle that is met in what core values denote stands in the table, so what is lent or taken
/// stood there.
pub fn what_is_met_stands()
    ensures { (w : View) (way : Way) (types : Fields) (slots : List CoreValue) (v : Val)
        → Denotes w way types slots v → AllThere w.table (met w way types slots v) }
{}

/// What a sound table has once all that was met was handed over: nothing where a handle was to be
/// owned, and each other handle where it stood, lent once more each time that it is borrowed.
pub fn what_is_handed_over_is_counted()
    ensures { (t : Handles) (most : ℕ) (ms : List Met) → AllThere t ms → CanGo t most ms
        → IsSoundHandles t → IsHanded t ms (after_met t ms) }
{
    tables_change_in_one_place();
}

/// A value that goes on still does once answers to its requests were kept, one or more: its giver's
/// memory is as it was, and the receiver's may be written and may grow.
pub fn what_goes_on_stays()
    ensures none { (s : Scanned) → OnlyAsked s s }
    ensures more { (r s t : Scanned) → OnlyAsked r s → OnlyAsked s t → OnlyAsked r t }
    ensures goes { (giver : View) (way : Way) (types : Fields) (slots : List CoreValue) (v : Val)
        (s t : Scanned) → GoesOn giver way types slots v s → OnlyAsked s t
        → GoesOn giver way types slots v t }
{}
