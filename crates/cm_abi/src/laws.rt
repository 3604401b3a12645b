//! What a call means, as laws: each function here does nothing, and its contract is the law.

ghost use Rattle.std.specs.Prelude.{◌≡◌, ◌↔◌, ◌+◌, Bool, List, Some, length, map, true};
ghost use Rattle.std.specs.Option.{option_map};
ghost use Rattle.cm_types.specs.Types.{Fields};
ghost use Rattle.cm_types.specs.Values.{Val};
ghost use Rattle.cm_types.specs.declared.core_value.CoreValue.{CoreValue};
ghost use Rattle.cm_abi_model.specs.Denotes.{Denotes};
ghost use Rattle.cm_abi_model.specs.Parts.{handle_count};
ghost use Rattle.cm_abi_model.specs.Receives.{leaves_in};
ghost use Rattle.cm_abi_model.specs.Requests.{CanStore, parts_of, requests, tuple_of};
ghost use Rattle.cm_abi_model.specs.Scanned.{GoesOn, Scanned, ScansCall, things_kept};
ghost use Rattle.cm_types.specs.Spellable.{are_spellable};
ghost use Rattle.cm_abi_model.specs.Taken.{met, tags_of};
ghost use Rattle.cm_abi_model.specs.Views.{View, Way};
ghost use Rattle.cm_abi_model.specs.Ways.{way_of};
ghost use Rattle.cm_abi_model.specs.Lifts.{Hands};
ghost use Rattle.cm_abi_model.specs.Lifts.{Lifts};
ghost use Rattle.cm_abi.specs.Lowers.{CanBeLowered, tuple_in};
ghost use Rattle.cm_abi.specs.declared.passing.Passing.{Passing};
ghost use Rattle.cm_handles.specs.Handles.{Handles, handle_at};
ghost use Rattle.cm_abi_model.specs.declared.encoding.StringEncoding.{StringEncoding};
ghost use Rattle.cm_abi_model.specs.HandleLeaves.{stands_for};
ghost use Rattle.cm_abi_model.specs.Answered.{all_requests};
ghost use Rattle.cm_abi_model.specs.Bytes.{AreBytes};
ghost use Rattle.cm_abi.specs.Calls.{GoOn};
ghost use Rattle.cm_abi.specs.Received.{WasGiven, told_to};
ghost use Rattle.cm_abi_model.specs.Stores.{Given};
ghost use Rattle.cm_abi_model.specs.HandleLeaves.{borrowed_in, owned_in};

use cm_abi_copy::met_laws::handles_that_are_met_are_the_values;
use cm_abi_model::laws::{denotations_are_unique, what_is_met_stands, what_is_received_is_denoted};
use cm_abi_requests::laws::{content_of_what_is_denoted, what_is_denoted_can_be_lowered};
use cm_abi_requests::requesting_laws::records_ask_for_parts;

/// One call, end to end: parameters or results, of all types, from UTF-8, UTF-16 or Latin-1 and
/// UTF-16 to UTF-8 or UTF-16.
///
/// Where `lift` gave values, with the tags of their strings, and these go on as they are, they can
/// be lowered: what `requests` and `lower` ask of their caller holds, whatever was written into the
/// giver's memory since. Where `lower` then answers core values that denote the values in the
/// receiver's view, both sides denote them, and no other: what the giver's core values denoted when
/// they were lifted is what the receiver's denote.
///
/// The handles that `lift` took out of the giver's table are, in reading order, those of the values
/// that are to be owned, which `lower` adds to the receiver's.
pub fn one_call()
    ensures lowerable { (giver : View) (types : Fields) (given : List CoreValue) (h : Hands)
        (p : Passing) → AreBytes giver.memory
        → Lifts giver (way_of p.way) types given (tuple_in p) p.tags.now h
        → GoOn giver p types → CanBeLowered p types }
    ensures same { (giver receiver : View) (types : Fields) (given received : List CoreValue)
        (h : Hands) (p : Passing)
        → Lifts giver (way_of p.way) types given (tuple_in p) p.tags.now h
        → Denotes receiver (way_of p.way) types received (tuple_in p) → (v : Val)
        → Denotes giver (way_of p.way) types given v
        ↔ Denotes receiver (way_of p.way) types received v }
    ensures owned { (giver : View) (way : Way) (types : Fields) (given : List CoreValue)
        (v : Val) (tags : List Bool) (h : Hands) → Lifts giver way types given v tags h
        → map stands_for h.owns ≡ owned_in (leaves_in (tuple_of types) v) }
{
    denotations_are_unique();
    content_of_what_is_denoted();
    what_is_denoted_can_be_lowered();
    handles_that_are_met_are_the_values();
}

/// One call, end to end, with no tree made of its values: parameters or results, of all types, from
/// UTF-8, UTF-16 or Latin-1 and UTF-16 to UTF-8 or UTF-16.
///
/// Where `scan` found values of types that a file can spell, which may be stored where they go,
/// they go on as they stood: what `copy` asks of its caller besides the answers holds, whichever of
/// the requests are answered; and the requests are those of the values, with the tags of their
/// strings. As many handles were taken out of the caller's table or lent there as the values have.
/// Where `copy` then leaves core values that denote the values in the receiver's view, both sides
/// denote them, and no other: what the core values denoted when they were scanned is what those of
/// the receiver denote.
pub fn one_copied_call()
    ensures copied { (giver : View) (target : StringEncoding) (way : Way) (types : Fields)
        (slots : List CoreValue) (v : Val) (t : Handles) (s : Scanned)
        → ScansCall giver target way types slots v t s → are_spellable types ≡ true
        → CanStore target types → GoesOn giver way types slots v s }
    ensures asked { (giver : View) (target : StringEncoding) (way : Way) (types : Fields)
        (slots : List CoreValue) (v : Val) (t : Handles) (s : Scanned)
        → ScansCall giver target way types slots v t s
        → all_requests s.parts ≡ requests way types v giver.encoding target
        (tags_of (met giver way types slots v)) }
    ensures same { (giver receiver : View) (target : StringEncoding) (way : Way) (types : Fields)
        (given received : List CoreValue) (v : Val) (t : Handles) (s : Scanned)
        → ScansCall giver target way types given v t s
        → Denotes receiver way types received v → (u : Val)
        → Denotes giver way types given u ↔ Denotes receiver way types received u }
    ensures shared { (giver : View) (target : StringEncoding) (way : Way) (types : Fields)
        (given : List CoreValue) (v : Val) (t : Handles) (s : Scanned)
        → AreBytes giver.memory → ScansCall giver target way types given v t s
        → length s.owns + length s.lends ≡ handle_count v }
{
    denotations_are_unique();
    records_ask_for_parts();
    handles_that_are_met_are_the_values();
    what_is_met_stands();
    what_is_denoted_can_be_lowered();
}

/// What is kept of a call whose values are copied. The handles that `scan` took out of the table of
/// the instance that passes them are, in reading order, those of the values that are to be owned,
/// which `copy` adds to the receiver's; and those that it lent are those that are to be borrowed. A
/// record is kept of each string and each list, one of a tuple behind a pointer, and each handle:
/// no more.
pub fn what_a_scan_keeps()
    ensures owned { (giver : View) (target : StringEncoding) (way : Way) (types : Fields)
        (given : List CoreValue) (v : Val) (t : Handles) (s : Scanned)
        → ScansCall giver target way types given v t s
        → map stands_for s.owns ≡ owned_in (leaves_in (tuple_of types) v) }
    ensures borrowed { (giver : View) (target : StringEncoding) (way : Way) (types : Fields)
        (given : List CoreValue) (v : Val) (t : Handles) (s : Scanned)
        → ScansCall giver target way types given v t s
        → map (λ index. option_map stands_for (handle_at giver.table index)) s.lends
        ≡ map Some (borrowed_in (leaves_in (tuple_of types) v)) }
    ensures kept { (giver : View) (target : StringEncoding) (way : Way) (types : Fields)
        (given : List CoreValue) (v : Val) (t : Handles) (s : Scanned)
        → AreBytes giver.memory → ScansCall giver target way types given v t s
        → things_kept s ≡ parts_of way types v }
{
    handles_that_are_met_are_the_values();
    what_is_met_stands();
    what_is_denoted_can_be_lowered();
}

/// What a receiver was given is one value, but for the serial numbers of borrows of resources that
/// it implements: of these it has the representations alone. Where the handles of two values that
/// it was given are the same, with these serial numbers, so are the values, wherever their parts
/// were placed and whichever numbers stand for their handles.
pub fn one_value_is_received()
    ensures handles { (w : View) (way : Way) (types : Fields) (slots : List CoreValue) (g k : Given)
        (u v : Val) → WasGiven w way types slots g u → WasGiven w way types slots k v
        → map (told_to w) (leaves_in (tuple_of types) u)
        ≡ map (told_to w) (leaves_in (tuple_of types) v) }
    ensures value { (w : View) (way : Way) (types : Fields) (slots : List CoreValue) (g k : Given)
        (u v : Val) → WasGiven w way types slots g u → WasGiven w way types slots k v
        → leaves_in (tuple_of types) u ≡ leaves_in (tuple_of types) v → u ≡ v }
{
    what_is_received_is_denoted();
    denotations_are_unique();
}
