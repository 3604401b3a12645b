//! What the requests by records are, as laws: each function here does nothing, and its contract is
//! the law.

ghost use Rattle.std.specs.Prelude.{◌≡◌, ◌↔◌, ◌≤◌, ◌++◌, ◌∷◌, [], Bool, List, None, length, ℕ};
ghost use Rattle.std.specs.Option.{IsSomeAnd};
ghost use Rattle.cm_types.specs.Types.{Fields};
ghost use Rattle.cm_types.specs.Values.{Val};
ghost use Rattle.cm_abi_model.specs.declared.encoding.StringEncoding.{StringEncoding};
ghost use Rattle.cm_abi_model.specs.declared.request.Request.{Request};
ghost use Rattle.cm_abi_model.specs.Parts.{Part};
ghost use Rattle.cm_abi_model.specs.Regions.{AreApart};
ghost use Rattle.cm_abi_model.specs.Requests.{IsStored, call_parts, part_requests};
ghost use Rattle.cm_abi_model.specs.Requests.{requests as requests_of};
ghost use Rattle.cm_abi_model.specs.Stores.{Given};
ghost use Rattle.cm_abi_model.specs.Taken.{MAX_CONTENT};
ghost use Rattle.cm_abi_model.specs.Views.{View, Way};
ghost use Rattle.cm_abi_model.specs.Answering.{answer_fault, first_fault, places_of};
ghost use Rattle.cm_abi_requests.specs.Asking.{content_of_parts};
ghost use Rattle.cm_abi_model.specs.Overlap.{AreDisjoint};
ghost use Rattle.cm_abi_model.specs.declared.record.PartRecord.{PartRecord};
ghost use Rattle.cm_abi_model.specs.Telling.{TellAll};
ghost use Rattle.cm_abi_model.specs.Answered.{IsAllAnswered, Requesting, all_requests, next_of};
ghost use Rattle.cm_abi_model.specs.Placing.{regions_at};
ghost use Rattle.cm_abi_model.specs.RecordRequests.{AreAskable, requests_for, tags_of};

/// The requests by records are those for the parts that the records tell, with the tags of their
/// strings; where strings are read in UTF-8 or in UTF-16, with any tags. So records that tell what
/// a call passes ask for exactly what lowering it asks for.
pub fn records_ask_for_parts()
    ensures parts { (w : View) (target : StringEncoding) (rs : List PartRecord)
        (parts : List Part) (places : List ℕ) → TellAll w target rs parts places
        → requests_for w.encoding target rs
        ≡ part_requests w.encoding target (tags_of rs) parts }
    ensures untagged { (w : View) (target : StringEncoding) (rs : List PartRecord)
        (parts : List Part) (places : List ℕ) (tags : List Bool)
        → TellAll w target rs parts places → IsStored w.encoding
        → requests_for w.encoding target rs ≡ part_requests w.encoding target tags parts }
    ensures call { (w : View) (target : StringEncoding) (rs : List PartRecord) (way : Way)
        (types : Fields) (v : Val) (places : List ℕ)
        → TellAll w target rs (call_parts way types v) places
        → requests_for w.encoding target rs
        ≡ requests_of way types v w.encoding target (tags_of rs) }
{}

/// Parts whose strings and lists are at most 16,777,216 bytes can be asked for by their records.
pub fn small_parts_can_be_asked_for()
    ensures { (w : View) (target : StringEncoding) (rs : List PartRecord) (parts : List Part)
        (places : List ℕ) (tags : List Bool) → TellAll w target rs parts places
        → content_of_parts w.encoding tags parts ≤ MAX_CONTENT → AreAskable rs }
{}

/// The regions of parts that records tell, each at its place, have no address in common exactly
/// where the parts are apart.
pub fn regions_of_records_are_those_of_parts()
    ensures { (w : View) (target : StringEncoding) (rs : List PartRecord) (parts : List Part)
        (starts : List ℕ) (g : Given) → TellAll w target rs parts starts
        → length rs ≤ length g.places
        → AreDisjoint (regions_at rs g.places) ↔ AreApart target g 0 parts }
{}

/// Once all requests are answered there are as many answers as requests, and each part stands at
/// the answer to the last request for it.
pub fn all_answers_place_parts()
    ensures count { (p : Requesting) (answers : List ℕ) → IsAllAnswered p answers
        → length answers ≡ length (all_requests p) }
    ensures places { (p : Requesting) (answers : List ℕ) → IsAllAnswered p answers
        → p.places ≡ places_of (all_requests p) answers }
    ensures each { (p : Requesting) (answers : List ℕ) → IsAllAnswered p answers
        → length p.places ≡ length p.records }
{}

/// Where no answer so far has a fault in a memory, and the next one has none in a memory that is as
/// long or longer, no answer has one there.
pub fn answers_stay_fine()
    ensures kept { (n m : ℕ) (rs : List Request) (answers : List ℕ) (at : ℕ) → n ≤ m
        → first_fault n rs answers ≡ None
        → IsSomeAnd (next_of rs answers) (λ r. answer_fault m r.0 at ≡ None)
        → first_fault m rs (answers ++ at ∷ []) ≡ None }
    ensures longer { (n m : ℕ) (rs : List Request) (answers : List ℕ) → n ≤ m
        → first_fault n rs answers ≡ None → first_fault m rs answers ≡ None }
{}
