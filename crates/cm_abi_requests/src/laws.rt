//! What requests and the checks of their answers mean, as laws: each function here does
//! nothing, and its contract is the law.

ghost use Rattle.std.specs.Prelude.{◌≡◌, ◌↔◌, ◌<◌, ◌≤◌, ◌^◌, Bool, List, None, length, slice_index};
ghost use Rattle.std.specs.Prelude.{true, ℕ};
ghost use Rattle.cm_types.specs.Spellable.{are_spellable};
ghost use Rattle.cm_types.specs.declared.core_value.CoreValue.{CoreValue};
ghost use Rattle.cm_types.specs.Types.{Fields, Ty};
ghost use Rattle.cm_types.specs.Values.{HasType, Val};
ghost use Rattle.cm_abi_model.specs.Denotes.{Denotes};
ghost use Rattle.cm_abi_model.specs.Parts.{Part, parts_in};
ghost use Rattle.cm_abi_model.specs.Regions.{AreApart, ArePlaced};
ghost use Rattle.cm_abi_model.specs.Requests.{IsStored, call_parts, part_requests, tuple_of};
ghost use Rattle.cm_abi_model.specs.Shows.{Shows};
ghost use Rattle.cm_abi_model.specs.Stores.{Given};
ghost use Rattle.cm_abi_model.specs.Taken.{MAX_CONTENT, content_of, met, met_at, tags_of};
ghost use Rattle.cm_abi_model.specs.Views.{View, Way};
ghost use Rattle.cm_abi_model.specs.declared.encoding.StringEncoding.{StringEncoding};
ghost use Rattle.cm_abi_model.specs.Answering.{AreCounted, HaveScalars, first_fault, places_of};
ghost use Rattle.cm_abi_model.specs.Answering.{regions_of};
ghost use Rattle.cm_abi_requests.specs.Asking.{content_of_parts};
ghost use Rattle.cm_abi_model.specs.Overlap.{AreDisjoint};

use cm_abi_model::laws::requests_end_exact;

/// What the answers to the requests for parts say of the parts, each of which stands at the answer
/// to the last request for it: where no answer has a fault, each part is aligned and lies in the
/// memory as a whole; and the regions are disjoint exactly where the parts are apart.
pub fn answers_place_parts()
    ensures placed { (source target : StringEncoding) (tags : List Bool) (parts : List Part)
        (answers : List ℕ) (memory_length : ℕ) (g : Given)
        → HaveScalars source tags parts → AreCounted parts
        → length answers ≡ length (part_requests source target tags parts)
        → first_fault memory_length (part_requests source target tags parts) answers ≡ None
        → g.places ≡ places_of (part_requests source target tags parts) answers
        → ArePlaced target memory_length g 0 parts }
    ensures apart { (source target : StringEncoding) (tags : List Bool) (parts : List Part)
        (answers : List ℕ) (g : Given) → HaveScalars source tags parts
        → length answers ≡ length (part_requests source target tags parts)
        → g.places ≡ places_of (part_requests source target tags parts) answers
        → AreDisjoint (regions_of (part_requests source target tags parts) answers)
        ↔ AreApart target g 0 parts }
{
    requests_end_exact();
}

/// The content of a value that bytes at an address show, which is met where it is read, is that of
/// its parts, with the tags that are met: so what is within the limit for a reader is so for what
/// it is asked for.
pub fn content_of_what_is_shown()
    ensures { (w : View) (t : Ty) (p : ℕ) (v : Val) → Shows w t p v
        → content_of_parts w.encoding (tags_of (met_at w t p v)) (parts_in t v)
        ≡ content_of (met_at w t p v) }
{}

/// The content of a value that the core values of a call denote is that of its parts, with the tags
/// that are met; and where strings are in UTF-8 or in UTF-16, which are stored, with any tags.
pub fn content_of_what_is_denoted()
    ensures tagged { (w : View) (way : Way) (types : Fields) (slots : List CoreValue) (v : Val)
        → Denotes w way types slots v
        → content_of_parts w.encoding (tags_of (met w way types slots v))
        (parts_in (tuple_of types) v) ≡ content_of (met w way types slots v) }
    ensures stored { (w : View) (way : Way) (types : Fields) (slots : List CoreValue) (v : Val)
        (tags : List Bool) → Denotes w way types slots v → IsStored w.encoding
        → content_of_parts w.encoding tags (parts_in (tuple_of types) v)
        ≡ content_of (met w way types slots v) }
{}

/// What the core values of a call denote, in a memory of bytes, can be lowered: it has the types of
/// the call, each of its lists is counted in 32 bits, and, where strings are in UTF-8 or in UTF-16,
/// each of its strings is spelled there, whatever the tags; so it is of its parts, whichever way
/// they go on. By the tags that are met each string is spelled where it was read, also in Latin-1.
pub fn what_is_denoted_can_be_lowered()
    ensures typed { (w : View) (way : Way) (types : Fields) (slots : List CoreValue) (v : Val)
        → ((i : ℕ) → slice_index w.memory i < 2 ^ 8) → Denotes w way types slots v
        → HasType (tuple_of types) v }
    ensures counted { (w : View) (way : Way) (types : Fields) (slots : List CoreValue) (v : Val)
        (to : Way) → ((i : ℕ) → slice_index w.memory i < 2 ^ 8) → Denotes w way types slots v
        → AreCounted (call_parts to types v) }
    ensures spelled { (w : View) (way : Way) (types : Fields) (slots : List CoreValue) (v : Val)
        (tags : List Bool) (to : Way) → ((i : ℕ) → slice_index w.memory i < 2 ^ 8)
        → Denotes w way types slots v → IsStored w.encoding
        → HaveScalars w.encoding tags (call_parts to types v) }
    ensures tagged { (w : View) (way : Way) (types : Fields) (slots : List CoreValue) (v : Val)
        → Denotes w way types slots v
        → HaveScalars w.encoding (tags_of (met w way types slots v))
        (parts_in (tuple_of types) v) }
{}

/// Values can be lowered that have their types, which a file can spell, and whose content is within
/// the limit: each string is spelled in UTF-8 and in UTF-16, whatever the tags, and each list is
/// counted in 32 bits, since an element takes a byte or more.
pub fn what_is_typed_can_be_lowered()
    ensures spelled { (t : Ty) (v : Val) (source : StringEncoding) (tags : List Bool)
        → IsStored source → HasType t v → HaveScalars source tags (parts_in t v) }
    ensures counted { (types : Fields) (v : Val) (source : StringEncoding) (tags : List Bool)
        → are_spellable types ≡ true
        → content_of_parts source tags (parts_in (tuple_of types) v) ≤ MAX_CONTENT
        → AreCounted (parts_in (tuple_of types) v) }
{}
