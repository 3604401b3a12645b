//! What the definitions say, as laws: each function here does nothing, and its contract is the law.

ghost use Rattle.std.specs.Prelude.{◌≡◌, ◌^◌, ◌<◌, ◌≤◌, ◌+◌, ◌*◌, ◌%◌, ◌⊎◌, ℕ, ℤ, List};
ghost use Rattle.std.specs.Prelude.{length, slice_index};
ghost use Rattle.cm_types.specs.Types.{Ty, bits_32, bits_8, field, fields, no_fields};
ghost use Rattle.cm_types.specs.Types.{Width, record_type, unsigned, width_bytes};
ghost use Rattle.cm_types.specs.Values.{FitsSignedWidth, Val, no_vals, number, parts, val};
ghost use Rattle.cm_abi_model.specs.Receives.{SlotsHold, call_bytes, call_kinds, call_numbers};
ghost use Rattle.cm_abi_model.specs.Receives.{put, slots_of};
ghost use Rattle.cm_types.specs.declared.core_value.CoreKind.TheVariants.{I32};
ghost use Rattle.cm_abi_model.specs.Shows.{Shows};
ghost use Rattle.cm_abi_model.specs.Views.{View};
ghost use Rattle.cm_types.specs.Types.{bool, char, signed};
ghost use Rattle.cm_types.specs.Values.{IsScalarValue, scalar, signed_number, truth};
ghost use Rattle.std.specs.Prelude.{Bool, false, true};
ghost use Rattle.cm_abi_model.specs.Numbers.{as_signed, number_at};
ghost use Rattle.cm_abi_model.specs.Stores.{Framed, Given, Holds, Placed, bytes_of, from_signed};
ghost use Rattle.cm_abi_model.specs.Stores.{number_of, place_of, placed, stored};
ghost use Rattle.cm_abi_model.specs.Texts.{utf16, utf8};
ghost use Rattle.cm_abi_model.specs.Bytes.{AreBytes, IsTwosComplement, StandsAt, bit_of};
ghost use Rattle.cm_abi_model.specs.Leaves.{IsByteOf};
ghost use Rattle.std.specs.Prelude.{None, Some};
ghost use Rattle.cm_types.specs.declared.resource.ResourceId.{ResourceId};
ghost use Rattle.cm_types.specs.Types.{Cases, CasesKind, Fields, FieldsKind, bits_16, borrow};
ghost use Rattle.cm_types.specs.Types.{cases, fixed_list, flags, list, own};
ghost use Rattle.cm_types.specs.Values.{HandleValue, Vals, bare, bearing, count_of, elements};
ghost use Rattle.cm_types.specs.Values.{flag_set, handle};
ghost use Rattle.cm_handles.specs.declared.handle.Handle.{Handle};
ghost use Rattle.cm_handles.specs.declared.handle.HandleKind.TheVariants.{Owned};
ghost use Rattle.cm_layout.specs.Alignment.{IsLeastMultiple};
ghost use Rattle.cm_layout.specs.Sizes.{IsLeastBytes, align_of, align_of_payloads, case_count};
ghost use Rattle.cm_layout.specs.Sizes.{field_count, field_offset, field_type, flags_size};
ghost use Rattle.cm_abi_model.specs.PartPlaces.{AreFieldsAt, AreInRow, AreLabels, AreOffsets};
ghost use Rattle.cm_abi_model.specs.PartPlaces.{IsCase};
ghost use Rattle.cm_abi_model.specs.PartPlaces.{IsGreatestAlignment, IsHandle, IsListAt, bit_at};
ghost use Rattle.cm_abi_model.specs.PartPlaces.{value_at};
ghost use Rattle.std.specs.Prelude.{[], ◌∷◌};
ghost use Rattle.cm_types.specs.Types.{carrying, no_cases, option_type, plain, string};
ghost use Rattle.cm_types.specs.Values.{text};
ghost use Rattle.cm_abi_model.specs.declared.encoding.StringEncoding.TheVariants.{Latin1OrUtf16};
ghost use Rattle.cm_abi_model.specs.declared.encoding.StringEncoding.TheVariants.{Utf16, Utf8};
ghost use Rattle.cm_abi_model.specs.Strings.{IsStringAt, StandInRow, utf16_units, utf8_units};
ghost use Rattle.std.specs.List.{AllByRecursion};
ghost use Rattle.cm_text.specs.Latin1.{HasLatin1};
ghost use Rattle.cm_abi_model.specs.declared.encoding.StringEncoding.{StringEncoding};
ghost use Rattle.cm_layout.specs.Sizes.{size_of};
ghost use Rattle.cm_abi_model.specs.Parts.{Part, parts_each, parts_in, text_part};
ghost use Rattle.cm_abi_model.specs.Requests.{part_requests, requests};
ghost use Rattle.std.specs.Prelude.{neg_ℤ, pos};
ghost use Rattle.cm_types.specs.declared.core_value.CoreValue.{CoreValue};
ghost use Rattle.cm_types.specs.Types.{bits_64, tuple_type};
ghost use Rattle.cm_layout.specs.Flattening.{flat_of_fields};
ghost use Rattle.cm_abi_model.specs.Denotes.{Denotes};
ghost use Rattle.cm_abi_model.specs.FlatShows.{FlatShows};
ghost use Rattle.cm_abi_model.specs.Views.{params, results};
ghost use Rattle.cm_abi_model.specs.PartPlaces.{AreElements};
ghost use Rattle.cm_abi_model.specs.Passed.{AreFieldsIn, AreFirst, AreLowBits, ArePassed, IsCore};
ghost use Rattle.cm_abi_model.specs.Passed.{IsCore32, IsTupleAt};
ghost use Rattle.cm_abi_model.specs.Strings.{IsString};
ghost use Rattle.cm_abi_model.specs.Asking.{AsksToUtf16, AsksToUtf8, again, fresh};

use cm_layout::laws::sizes_of_numbers;

/// A number that is stored in so many bytes, or read from them, has its lowest byte first; it is
/// read as a signed number, and stored for one, in two's complement (CanonicalABI.md, "Loading" and
/// "Storing" of integers). Of a number that is cut to so many bits the lower ones stay.
pub fn numbers_in_bytes()
    ensures read { (bytes : ℕ) (memory : List ℕ) (at : ℕ) → AreBytes memory
        → StandsAt memory at bytes (number_at bytes memory at) }
    ensures only_one { (bytes : ℕ) (memory : List ℕ) (at n : ℕ) → StandsAt memory at bytes n
        → n ≡ number_at bytes memory at }
    ensures stored { (bytes : ℕ) (memory : List ℕ) (at n : ℕ) → n < 256 ^ bytes
        → Holds memory (placed at (bytes_of bytes n)) → StandsAt memory at bytes n }
    ensures signed_read { (k : Width) (n : ℕ) → n < 256 ^ width_bytes k
        → IsTwosComplement (8 * width_bytes k) n (as_signed (width_bytes k) n) }
    ensures signed_stored { (k : Width) (z : ℤ) → FitsSignedWidth k z
        → (from_signed (width_bytes k) z < 256 ^ width_bytes k)
        × IsTwosComplement (8 * width_bytes k) (from_signed (width_bytes k) z) z }
    ensures bits { (n kept i : ℕ) → i < kept → bit_of (n % 2 ^ kept) i ≡ bit_of n i }
{}

/// Where a value was stored, memory is as long as it was, and each byte that is none of the
/// value's is as it was: the one before a number and the one behind it, and the padding between the
/// fields of a record, as that of a `u8` and a `u32` (CanonicalABI.md, "Storing").
pub fn other_bytes_stay()
    ensures length { (old new : List ℕ) (bytes : List Placed) → Framed old new bytes
        → length new ≡ length old }
    ensures values { (old new : List ℕ) (g : Given) (t : Ty) (v : Val) (p k h : ℕ)
        → Framed old new (stored g t v p k h)
        → (at : ℕ) → (IsByteOf g t v p k at → ⊥) → slice_index new at ≡ slice_index old at }
    ensures numbers { (old new : List ℕ) (p bytes n : ℕ)
        → Framed old new (placed p (bytes_of bytes n))
        → (at : ℕ) → (at < p) ⊎ (p + bytes ≤ at) → slice_index new at ≡ slice_index old at }
    ensures padding { (old new : List ℕ) (g : Given) (l m : List ℕ) (x y p k h : ℕ)
        → Framed old new (stored g
        (fields record_type (field l (unsigned bits_8) (field m (unsigned bits_32) no_fields)))
        (parts (val (number x) (val (number y) no_vals))) p k h)
        → (at : ℕ) → p < at → at < p + 4 → slice_index new at ≡ slice_index old at }
{}

/// A `true` is stored and passed as 1, and a `false` as 0 (CanonicalABI.md, "Storing").
pub fn truths_are_stored()
    ensures stored_true { (memory : List ℕ) (g : Given) (p k h : ℕ)
        → Holds memory (stored g bool (truth true) p k h) → slice_index memory p ≡ 1 }
    ensures stored_false { (memory : List ℕ) (g : Given) (p k h : ℕ)
        → Holds memory (stored g bool (truth false) p k h) → slice_index memory p ≡ 0 }
    ensures passed_true { (g : Given) (s k h : ℕ) → slots_of g bool (truth true) s k h ≡ put s 1 }
    ensures passed_false { (g : Given) (s k h : ℕ)
        → slots_of g bool (truth false) s k h ≡ put s 0 }
{}

/// A byte that is 0 is loaded as `false`, and any other as `true` (CanonicalABI.md, "Loading",
/// `convert_int_to_bool`).
pub fn truths_are_loaded()
    ensures zero_is_false { (w : View) (p : ℕ) (b : Bool) → slice_index w.memory p ≡ 0
        → Shows w bool p (truth b) → b ≡ false }
    ensures others_are_true { (w : View) (p : ℕ) (b : Bool) → 0 < slice_index w.memory p
        → Shows w bool p (truth b) → b ≡ true }
    ensures false_only { (w : View) (p : ℕ) → slice_index w.memory p ≡ 0
        → Shows w bool p (truth false) }
    ensures true_only { (w : View) (p : ℕ) → 0 < slice_index w.memory p
        → Shows w bool p (truth true) }
{}

/// A number without sign stands in as many bytes as its type has, and one with a sign in two's
/// complement; a char is a Unicode scalar in 4 bytes (CanonicalABI.md, "Loading", `load_int` and
/// `convert_i32_to_char`).
pub fn numbers_are_loaded()
    ensures unsigned { (w : View) (k : Width) (p n : ℕ) → AreBytes w.memory
        → Shows w (unsigned k) p (number n) → StandsAt w.memory p (width_bytes k) n }
    ensures signed { (w : View) (k : Width) (p : ℕ) (z : ℤ) → AreBytes w.memory
        → Shows w (signed k) p (signed_number z)
        → (n : ℕ) × StandsAt w.memory p (width_bytes k) n
        × IsTwosComplement (8 * width_bytes k) n z }
    ensures scalars { (w : View) (p c : ℕ) → AreBytes w.memory → Shows w char p (scalar c)
        → StandsAt w.memory p 4 c × IsScalarValue c }
    ensures unsigned_only { (w : View) (k : Width) (p n : ℕ)
        → StandsAt w.memory p (width_bytes k) n → Shows w (unsigned k) p (number n) }
    ensures signed_only { (w : View) (k : Width) (p n : ℕ) (z : ℤ)
        → StandsAt w.memory p (width_bytes k) n → IsTwosComplement (8 * width_bytes k) n z
        → Shows w (signed k) p (signed_number z) }
    ensures scalars_only { (w : View) (p c : ℕ) → StandsAt w.memory p 4 c → IsScalarValue c
        → Shows w char p (scalar c) }
{}

/// Label i of flags is in a set where bit i of the bytes is set, and bits past the last label are
/// not looked at; where a set is stored these are 0 (CanonicalABI.md, "Loading" and "Storing" of
/// flags, `unpack_flags_from_int` and `pack_flags_into_int`; flags have 32 labels at most).
pub fn labels_are_bits()
    ensures read { (w : View) (labels : List (List ℕ)) (p set : ℕ) → AreBytes w.memory
        → length labels ≤ 32 → Shows w (flags labels) p (flag_set set)
        → AreLabels w.memory p (length labels) set }
    ensures only { (w : View) (labels : List (List ℕ)) (p set : ℕ) → AreBytes w.memory
        → length labels ≤ 32 → AreLabels w.memory p (length labels) set
        → Shows w (flags labels) p (flag_set set) }
    ensures stored { (memory : List ℕ) (g : Given) (labels : List (List ℕ)) (set p k h : ℕ)
        → length labels ≤ 32 → set < 2 ^ length labels
        → Holds memory (stored g (flags labels) (flag_set set) p k h)
        → (i : ℕ) → i < 8 * flags_size (length labels) → bit_at memory p i ≡ bit_of set i }
{
    sizes_of_numbers();
}

/// Each field of a record or a tuple is shown at its offset, in order: the first at 0, each next
/// one at the least multiple of its alignment at which the one before it has ended. So each offset
/// is a multiple of the field's alignment (CanonicalABI.md, "Alignment", "Element Size" and
/// "Loading", `load_record`). Of a `u8`, a `u32` and a `u16` the offsets are 0, 4 and 8.
pub fn fields_stand_at_offsets()
    ensures there { (k : FieldsKind) (fs : Fields) → AreOffsets fs (field_offset (fields k fs)) }
    ensures aligned { (fs : Fields) (offset : ℕ → ℕ) → AreOffsets fs offset
        → (i : ℕ) → i < field_count fs
        → (m : ℕ) × (offset i ≡ m * align_of (field_type fs i)) }
    ensures read { (w : View) (k : FieldsKind) (fs : Fields) (offset : ℕ → ℕ) (p : ℕ) (vs : Vals)
        → AreOffsets fs offset → Shows w (fields k fs) p (parts vs)
        → AreFieldsAt w fs offset p vs }
    ensures only { (w : View) (k : FieldsKind) (fs : Fields) (offset : ℕ → ℕ) (p : ℕ) (vs : Vals)
        → AreOffsets fs offset → AreFieldsAt w fs offset p vs
        → Shows w (fields k fs) p (parts vs) }
    ensures example { (w : View) (l m o : List ℕ) (x y z p : ℕ) → AreBytes w.memory
        → Shows w (fields record_type (field l (unsigned bits_8) (field m (unsigned bits_32)
        (field o (unsigned bits_16) no_fields)))) p
        (parts (val (number x) (val (number y) (val (number z) no_vals))))
        → StandsAt w.memory p 1 x × StandsAt w.memory (p + 4) 4 y
        × StandsAt w.memory (p + 8) 2 z }
{}

/// A string is its pointer and behind it its length, each in 4 bytes; the pointer is a multiple of
/// the alignment, and the units stand there in a row inside the memory. The length counts bytes in
/// UTF-8 and units of 16 bits in UTF-16; in `latin1+utf16` it counts bytes of Latin-1, or units of
/// UTF-16 where its highest bit is set (CanonicalABI.md, "Loading", `load_string`). So the length
/// of a string of the one character U+1F600 is 4, 2 or 0x80000002.
pub fn strings_are_pointers()
    ensures read { (w : View) (p : ℕ) (scalars : List ℕ) → AreBytes w.memory
        → Shows w string p (text scalars) → IsStringAt w p scalars }
    ensures only { (w : View) (p : ℕ) (scalars : List ℕ) → IsStringAt w p scalars
        → Shows w string p (text scalars) }
    ensures in_utf8 { (w : View) (p : ℕ) → AreBytes w.memory → w.encoding ≡ Utf8
        → Shows w string p (text (0x1F600 ∷ [])) → StandsAt w.memory (p + 4) 4 4 }
    ensures in_utf16 { (w : View) (p : ℕ) → AreBytes w.memory → w.encoding ≡ Utf16
        → Shows w string p (text (0x1F600 ∷ [])) → StandsAt w.memory (p + 4) 4 2 }
    ensures tagged { (w : View) (p : ℕ) → AreBytes w.memory → w.encoding ≡ Latin1OrUtf16
        → Shows w string p (text (0x1F600 ∷ [])) → StandsAt w.memory (p + 4) 4 0x80000002 }
{}

/// A list is the pointer to its elements and behind it their number, each in 4 bytes. The pointer
/// is a multiple of their alignment, and element i is shown at i times their size behind it, all of
/// them inside the memory. Of a list of fixed length the elements stand in place (CanonicalABI.md,
/// "Loading", `load_list`).
pub fn lists_are_pointers()
    ensures read { (w : View) (t : Ty) (p : ℕ) (vs : Vals) → AreBytes w.memory
        → Shows w (list t) p (elements vs) → IsListAt w t p vs }
    ensures only { (w : View) (t : Ty) (p : ℕ) (vs : Vals) → IsListAt w t p vs
        → Shows w (list t) p (elements vs) }
    ensures fixed_read { (w : View) (t : Ty) (n p : ℕ) (vs : Vals)
        → Shows w (fixed_list t n) p (parts vs) → (count_of vs ≡ n) × AreInRow w t p vs }
    ensures fixed_only { (w : View) (t : Ty) (n p : ℕ) (vs : Vals) → count_of vs ≡ n
        → AreInRow w t p vs → Shows w (fixed_list t n) p (parts vs) }
{}

/// A case is its number, in the least of 1, 2 and 4 bytes that tell so many cases apart; what it
/// carries is shown behind that at the least multiple of the greatest alignment that any of the
/// cases wants (CanonicalABI.md, "Alignment", `max_case_alignment`, and "Loading",
/// `load_variant`). The `some` of an `option<u32>` is a byte 1, with the number 4 bytes behind it.
pub fn cases_are_numbers()
    ensures there { (cs : Cases) → IsGreatestAlignment cs (align_of_payloads cs) }
    ensures bare_read { (w : View) (k : CasesKind) (cs : Cases) (p i b : ℕ) → AreBytes w.memory
        → case_count cs ≤ 2 ^ 32 → IsLeastBytes (λ x. case_count cs ≤ 256 ^ x) b
        → Shows w (cases k cs) p (bare i) → StandsAt w.memory p b i × IsCase cs i None }
    ensures bare_only { (w : View) (k : CasesKind) (cs : Cases) (p i b : ℕ)
        → case_count cs ≤ 2 ^ 32 → IsLeastBytes (λ x. case_count cs ≤ 256 ^ x) b
        → StandsAt w.memory p b i → IsCase cs i None → Shows w (cases k cs) p (bare i) }
    ensures bearing_read { (w : View) (k : CasesKind) (cs : Cases) (p i b a offset : ℕ) (v : Val)
        → AreBytes w.memory → case_count cs ≤ 2 ^ 32
        → IsLeastBytes (λ x. case_count cs ≤ 256 ^ x) b → IsGreatestAlignment cs a
        → IsLeastMultiple a b offset → Shows w (cases k cs) p (bearing i v)
        → StandsAt w.memory p b i
        × ((t : Ty) × IsCase cs i (Some t) × Shows w t (p + offset) v) }
    ensures bearing_only { (w : View) (k : CasesKind) (cs : Cases) (p i b a offset : ℕ) (v : Val)
        (t : Ty) → case_count cs ≤ 2 ^ 32 → IsLeastBytes (λ x. case_count cs ≤ 256 ^ x) b
        → IsGreatestAlignment cs a → IsLeastMultiple a b offset → StandsAt w.memory p b i
        → IsCase cs i (Some t) → Shows w t (p + offset) v → Shows w (cases k cs) p (bearing i v) }
    ensures example { (w : View) (l m : List ℕ) (p n : ℕ) → AreBytes w.memory
        → Shows w (cases option_type (plain l (carrying m (unsigned bits_32) no_cases))) p
        (bearing 1 (number n)) → StandsAt w.memory p 1 1 × StandsAt w.memory (p + 4) 4 n }
{
    sizes_of_numbers();
}

/// A handle is 4 bytes of an index at which the table has a handle to the resource; to be owned,
/// it has to own it (CanonicalABI.md, "Loading", `lift_own` and `lift_borrow`).
pub fn handles_are_indices()
    ensures own_read { (w : View) (r : ResourceId) (p : ℕ) (h : HandleValue) → AreBytes w.memory
        → Shows w (own r) p (handle h) → (index : ℕ) × (entry : Handle)
        × StandsAt w.memory p 4 index × IsHandle w.table index r entry h × (entry.kind ≡ Owned) }
    ensures own_only { (w : View) (r : ResourceId) (p index : ℕ) (entry : Handle)
        (h : HandleValue) → StandsAt w.memory p 4 index → IsHandle w.table index r entry h
        → entry.kind ≡ Owned → Shows w (own r) p (handle h) }
    ensures borrow_read { (w : View) (r : ResourceId) (p : ℕ) (h : HandleValue)
        → AreBytes w.memory → Shows w (borrow r) p (handle h) → (index : ℕ) × (entry : Handle)
        × StandsAt w.memory p 4 index × IsHandle w.table index r entry h }
    ensures borrow_only { (w : View) (r : ResourceId) (p index : ℕ) (entry : Handle)
        (h : HandleValue) → StandsAt w.memory p 4 index → IsHandle w.table index r entry h
        → Shows w (borrow r) p (handle h) }
{}

/// A string that is stored in another encoding than it is read in asks first for a guess, and then,
/// with the old pointer and the old size, for what it takes: to UTF-8 for a byte a unit, where a
/// character is none of ASCII then for the most bytes that its units may take, three of one of
/// UTF-16 and two of one of Latin-1, and for fewer where it takes fewer; from UTF-8 to UTF-16 for
/// two bytes a byte, and for fewer where it takes fewer (CanonicalABI.md, "Storing",
/// `store_string_to_utf8` and `store_utf8_to_utf16`). So U+E9 from UTF-16 to UTF-8 asks for 1 byte,
/// then for 3 in place of 1, then for 2 in place of 3.
pub fn transcoded_strings_ask_again()
    ensures utf16_to_utf8 { (scalars : List ℕ) (others : List Part)
        → AsksToUtf8 (length (utf16_units scalars)) (3 * length (utf16_units scalars)) scalars
        (part_requests Utf16 Utf8 [] (text_part scalars ∷ others))
        (part_requests Utf16 Utf8 [] others) }
    ensures tagged_to_utf8 { (scalars : List ℕ) (others : List Part) (tags : List Bool)
        → AsksToUtf8 (length (utf16_units scalars)) (3 * length (utf16_units scalars)) scalars
        (part_requests Latin1OrUtf16 Utf8 (true ∷ tags) (text_part scalars ∷ others))
        (part_requests Latin1OrUtf16 Utf8 tags others) }
    ensures latin1_to_utf8 { (scalars : List ℕ) (others : List Part) (tags : List Bool)
        → AllByRecursion HasLatin1 scalars
        → AsksToUtf8 (length scalars) (2 * length scalars) scalars
        (part_requests Latin1OrUtf16 Utf8 (false ∷ tags) (text_part scalars ∷ others))
        (part_requests Latin1OrUtf16 Utf8 tags others) }
    ensures utf8_to_utf16 { (scalars : List ℕ) (others : List Part)
        → AsksToUtf16 (2 * length (utf8_units scalars)) scalars
        (part_requests Utf8 Utf16 [] (text_part scalars ∷ others))
        (part_requests Utf8 Utf16 [] others) }
    ensures example { part_requests Utf16 Utf8 [] (text_part (0xE9 ∷ []) ∷ [])
        ≡ fresh 1 1 ∷ again 1 1 3 ∷ again 3 1 2 ∷ [] }
{}

/// A string that is stored as it was read, or from Latin-1 in UTF-16, asks once, for what it takes
/// (CanonicalABI.md, "Storing", `store_string_copy`).
pub fn strings_ask_once()
    ensures utf8 { (scalars : List ℕ) (others : List Part)
        → part_requests Utf8 Utf8 [] (text_part scalars ∷ others)
        ≡ fresh 1 (length (utf8_units scalars)) ∷ part_requests Utf8 Utf8 [] others }
    ensures utf16 { (scalars : List ℕ) (others : List Part)
        → part_requests Utf16 Utf16 [] (text_part scalars ∷ others)
        ≡ fresh 2 (2 * length (utf16_units scalars)) ∷ part_requests Utf16 Utf16 [] others }
    ensures tagged { (scalars : List ℕ) (others : List Part) (tags : List Bool)
        → part_requests Latin1OrUtf16 Utf16 (true ∷ tags) (text_part scalars ∷ others)
        ≡ fresh 2 (2 * length (utf16_units scalars))
        ∷ part_requests Latin1OrUtf16 Utf16 tags others }
    ensures latin1 { (scalars : List ℕ) (others : List Part) (tags : List Bool)
        → AllByRecursion HasLatin1 scalars
        → part_requests Latin1OrUtf16 Utf16 (false ∷ tags) (text_part scalars ∷ others)
        ≡ fresh 2 (2 * length scalars) ∷ part_requests Latin1OrUtf16 Utf16 tags others }
{}

/// An i32 of 0 is lifted as `false`, and any other as `true` (CanonicalABI.md, "Flat Lifting").
pub fn truths_are_lifted_flat()
    ensures zero_is_false { (w : View) (s : List CoreValue) (k : ℕ) (b : Bool) → IsCore32 s k 0
        → FlatShows w s bool k (truth b) → b ≡ false }
    ensures others_are_true { (w : View) (s : List CoreValue) (k n : ℕ) (b : Bool)
        → IsCore32 s k n → 0 < n → FlatShows w s bool k (truth b) → b ≡ true }
    ensures false_only { (w : View) (s : List CoreValue) (k : ℕ) → IsCore32 s k 0
        → FlatShows w s bool k (truth false) }
    ensures true_only { (w : View) (s : List CoreValue) (k n : ℕ) → IsCore32 s k n → 0 < n
        → FlatShows w s bool k (truth true) }
{}

/// Of an i32 or an i64 the lowest bits that the type has are the number, read in two's complement
/// where it has a sign; a char is a scalar (CanonicalABI.md, "Flat Lifting", `lift_flat_unsigned`
/// and `lift_flat_signed`). So an i32 of 0x1FFFE is the `u16` 65534, and 0xFFFFFFFE is -2 as `s8`.
pub fn numbers_are_lifted_flat()
    ensures unsigned { (w : View) (s : List CoreValue) (t : Width) (k n m : ℕ) → IsCore s k n
        → FlatShows w s (unsigned t) k (number m) → m ≡ n % 2 ^ (8 * width_bytes t) }
    ensures signed { (w : View) (s : List CoreValue) (t : Width) (k n : ℕ) (z : ℤ) → IsCore s k n
        → FlatShows w s (signed t) k (signed_number z)
        → IsTwosComplement (8 * width_bytes t) (n % 2 ^ (8 * width_bytes t)) z }
    ensures chars { (w : View) (s : List CoreValue) (k n c : ℕ) → IsCore32 s k n
        → FlatShows w s char k (scalar c) → (c ≡ n) × IsScalarValue c }
    ensures unsigned_only { (w : View) (s : List CoreValue) (t : Width) (k n : ℕ) → IsCore s k n
        → FlatShows w s (unsigned t) k (number (n % 2 ^ (8 * width_bytes t))) }
    ensures signed_only { (w : View) (s : List CoreValue) (t : Width) (k n : ℕ) (z : ℤ)
        → IsCore s k n → IsTwosComplement (8 * width_bytes t) (n % 2 ^ (8 * width_bytes t)) z
        → FlatShows w s (signed t) k (signed_number z) }
    ensures chars_only { (w : View) (s : List CoreValue) (k c : ℕ) → IsCore32 s k c
        → IsScalarValue c → FlatShows w s char k (scalar c) }
    ensures u16_read { (w : View) (s : List CoreValue) (k m : ℕ) → IsCore s k 0x1FFFE
        → FlatShows w s (unsigned bits_16) k (number m) → m ≡ 65534 }
    ensures s8_read { (w : View) (s : List CoreValue) (k : ℕ) (z : ℤ) → IsCore s k 0xFFFFFFFE
        → FlatShows w s (signed bits_8) k (signed_number z) → z ≡ neg_ℤ (pos 2) }
{}

/// Flags are the lowest bits of an i32, one for each label (CanonicalABI.md, "Flat Lifting",
/// `lift_flat_flags`).
pub fn flags_are_lifted_flat()
    ensures flags_read { (w : View) (s : List CoreValue) (labels : List (List ℕ)) (k n set : ℕ)
        → IsCore32 s k n → FlatShows w s (flags labels) k (flag_set set)
        → AreLowBits n (length labels) set }
    ensures flags_only { (w : View) (s : List CoreValue) (labels : List (List ℕ)) (k n set : ℕ)
        → IsCore32 s k n → AreLowBits n (length labels) set
        → FlatShows w s (flags labels) k (flag_set set) }
{}

/// A number with a sign is passed in two's complement of 32 bits, or of 64 (CanonicalABI.md, "Flat
/// Lowering", `lower_flat_signed`). So -2 as `s8` is 0xFFFFFFFE.
pub fn signed_numbers_are_lowered_flat()
    ensures narrow { (g : Given) (t : Width) (z : ℤ) (s k h : ℕ) → width_bytes t ≤ 4
        → FitsSignedWidth t z → (n : ℕ)
        × (slots_of g (signed t) (signed_number z) s k h ≡ put s n)
        × (n < 2 ^ 32) × IsTwosComplement 32 n z }
    ensures wide { (g : Given) (z : ℤ) (s k h : ℕ) → FitsSignedWidth bits_64 z → (n : ℕ)
        × (slots_of g (signed bits_64) (signed_number z) s k h ≡ put s n)
        × (n < 2 ^ 64) × IsTwosComplement 64 n z }
    ensures s8_passed { (g : Given) (s k h : ℕ)
        → slots_of g (signed bits_8) (signed_number (neg_ℤ (pos 2))) s k h ≡ put s 0xFFFFFFFE }
{}

/// Strings and lists are passed as their pointer and their length, in two i32 in this order
/// (CanonicalABI.md, "Flat Lifting", `lift_flat_string` and `lift_flat_list`).
pub fn strings_and_lists_are_lifted_flat()
    ensures string { (w : View) (s : List CoreValue) (k at n : ℕ) (scalars : List ℕ)
        → AreBytes w.memory → IsCore32 s k at → IsCore32 s (k + 1) n
        → FlatShows w s string k (text scalars) → IsString w at n scalars }
    ensures string_only { (w : View) (s : List CoreValue) (k at n : ℕ) (scalars : List ℕ)
        → IsCore32 s k at → IsCore32 s (k + 1) n → IsString w at n scalars
        → FlatShows w s string k (text scalars) }
    ensures list { (w : View) (s : List CoreValue) (t : Ty) (k at n : ℕ) (vs : Vals)
        → IsCore32 s k at → IsCore32 s (k + 1) n → FlatShows w s (list t) k (elements vs)
        → (count_of vs ≡ n) × AreElements w t at vs }
    ensures list_only { (w : View) (s : List CoreValue) (t : Ty) (k at n : ℕ) (vs : Vals)
        → IsCore32 s k at → IsCore32 s (k + 1) n → count_of vs ≡ n → AreElements w t at vs
        → FlatShows w s (list t) k (elements vs) }
{}

/// A handle is passed as its index in the table of the instance that passes it; to be owned, the
/// handle there has to own its resource (CanonicalABI.md, "Flat Lifting", `lift_own` and
/// `lift_borrow`).
pub fn handles_are_lifted_flat()
    ensures own { (w : View) (s : List CoreValue) (r : ResourceId) (k index : ℕ) (h : HandleValue)
        → IsCore32 s k index → FlatShows w s (own r) k (handle h)
        → (entry : Handle) × IsHandle w.table index r entry h × (entry.kind ≡ Owned) }
    ensures own_only { (w : View) (s : List CoreValue) (r : ResourceId) (k index : ℕ)
        (entry : Handle) (h : HandleValue) → IsCore32 s k index
        → IsHandle w.table index r entry h → entry.kind ≡ Owned
        → FlatShows w s (own r) k (handle h) }
    ensures borrow { (w : View) (s : List CoreValue) (r : ResourceId) (k index : ℕ)
        (h : HandleValue) → IsCore32 s k index → FlatShows w s (borrow r) k (handle h)
        → (entry : Handle) × IsHandle w.table index r entry h }
    ensures borrow_only { (w : View) (s : List CoreValue) (r : ResourceId) (k index : ℕ)
        (entry : Handle) (h : HandleValue) → IsCore32 s k index
        → IsHandle w.table index r entry h → FlatShows w s (borrow r) k (handle h) }
{}

/// Fields are passed one after another, each in as many core values as its type has, and so are the
/// elements of a list of fixed length (CanonicalABI.md, "Flattening" and "Flat Lifting",
/// `lift_flat_record`).
pub fn fields_are_lifted_flat()
    ensures there { (fs : Fields) → (first : ℕ → ℕ) × AreFirst fs first }
    ensures fields { (w : View) (s : List CoreValue) (x : FieldsKind) (fs : Fields)
        (first : ℕ → ℕ) (k : ℕ) (vs : Vals) → AreFirst fs first
        → FlatShows w s (fields x fs) k (parts vs) → AreFieldsIn w s fs first k vs }
    ensures fields_only { (w : View) (s : List CoreValue) (x : FieldsKind) (fs : Fields)
        (first : ℕ → ℕ) (k : ℕ) (vs : Vals) → AreFirst fs first
        → AreFieldsIn w s fs first k vs → FlatShows w s (fields x fs) k (parts vs) }
    ensures fixed { (w : View) (s : List CoreValue) (t : Ty) (n k : ℕ) (vs : Vals)
        → FlatShows w s (fixed_list t n) k (parts vs) → (count_of vs ≡ n) × ArePassed w s t k vs }
    ensures fixed_only { (w : View) (s : List CoreValue) (t : Ty) (n k : ℕ) (vs : Vals)
        → count_of vs ≡ n → ArePassed w s t k vs → FlatShows w s (fixed_list t n) k (parts vs) }
{}

/// A case is passed as its number, and behind it what it carries (CanonicalABI.md, "Flattening" and
/// "Flat Lifting", `lift_flat_variant`).
pub fn cases_are_lifted_flat()
    ensures bare { (w : View) (s : List CoreValue) (x : CasesKind) (cs : Cases) (k n i : ℕ)
        → IsCore32 s k n → FlatShows w s (cases x cs) k (bare i)
        → (i ≡ n) × IsCase cs i None }
    ensures bare_only { (w : View) (s : List CoreValue) (x : CasesKind) (cs : Cases) (k i : ℕ)
        → IsCore32 s k i → IsCase cs i None → FlatShows w s (cases x cs) k (bare i) }
    ensures bearing { (w : View) (s : List CoreValue) (x : CasesKind) (cs : Cases) (k n i : ℕ)
        (v : Val) → IsCore32 s k n → FlatShows w s (cases x cs) k (bearing i v)
        → (i ≡ n) × ((t : Ty) × IsCase cs i (Some t) × FlatShows w s t (k + 1) v) }
    ensures bearing_only { (w : View) (s : List CoreValue) (x : CasesKind) (cs : Cases) (k i : ℕ)
        (v : Val) (t : Ty) → IsCore32 s k i → IsCase cs i (Some t) → FlatShows w s t (k + 1) v
        → FlatShows w s (cases x cs) k (bearing i v) }
{}

/// Parameters that take 16 core values at most are passed in them; more of them spill: one i32 is
/// the pointer to the tuple of them in memory (CanonicalABI.md, "Lifting and Lowering Values",
/// `MAX_FLAT_PARAMS`, `lift_flat_values` and `lower_flat_values`).
pub fn parameters_spill()
    ensures params_flat { (w : View) (types : Fields) (s : List CoreValue) (v : Val)
        → length (flat_of_fields types) ≤ 16 → Denotes w params types s v
        → FlatShows w s (fields tuple_type types) 0 v }
    ensures params_flat_only { (w : View) (types : Fields) (s : List CoreValue) (v : Val)
        → length (flat_of_fields types) ≤ 16 → FlatShows w s (fields tuple_type types) 0 v
        → Denotes w params types s v }
    ensures params_behind { (w : View) (types : Fields) (s : List CoreValue) (p : ℕ) (v : Val)
        → 16 < length (flat_of_fields types) → IsCore32 s 0 p → Denotes w params types s v
        → IsTupleAt w types p v }
    ensures params_behind_only { (w : View) (types : Fields) (s : List CoreValue) (p : ℕ)
        (v : Val) → 16 < length (flat_of_fields types) → IsCore32 s 0 p
        → IsTupleAt w types p v → Denotes w params types s v }
    ensures params_kinds { (types : Fields) → length (flat_of_fields types) ≤ 16
        → call_kinds params types ≡ flat_of_fields types }
    ensures params_lowered { (g : Given) (types : Fields) (v : Val)
        → 16 < length (flat_of_fields types) → (call_kinds params types ≡ I32 ∷ [])
        × (call_numbers g params types v ≡ put 0 (place_of g 0))
        × (call_bytes g params types v
        ≡ stored g (fields tuple_type types) v (place_of g 0) 1 0) }
{}

/// A result that takes 1 core value at most is passed in it; a longer one spills: one i32 is the
/// pointer to the tuple of it in memory (CanonicalABI.md, "Lifting and Lowering Values",
/// `MAX_FLAT_RESULTS`, `lift_flat_values` and `lower_flat_values`).
pub fn results_spill()
    ensures result_flat { (w : View) (types : Fields) (s : List CoreValue) (v : Val)
        → length (flat_of_fields types) ≤ 1 → Denotes w results types s v
        → FlatShows w s (fields tuple_type types) 0 v }
    ensures result_flat_only { (w : View) (types : Fields) (s : List CoreValue) (v : Val)
        → length (flat_of_fields types) ≤ 1 → FlatShows w s (fields tuple_type types) 0 v
        → Denotes w results types s v }
    ensures result_behind { (w : View) (types : Fields) (s : List CoreValue) (p : ℕ) (v : Val)
        → 1 < length (flat_of_fields types) → IsCore32 s 0 p → Denotes w results types s v
        → IsTupleAt w types p v }
    ensures result_behind_only { (w : View) (types : Fields) (s : List CoreValue) (p : ℕ)
        (v : Val) → 1 < length (flat_of_fields types) → IsCore32 s 0 p
        → IsTupleAt w types p v → Denotes w results types s v }
    ensures result_kinds { (types : Fields) → length (flat_of_fields types) ≤ 1
        → call_kinds results types ≡ flat_of_fields types }
    ensures result_lowered { (g : Given) (types : Fields) (v : Val)
        → 1 < length (flat_of_fields types) → (call_kinds results types ≡ I32 ∷ [])
        × (call_numbers g results types v ≡ put 0 (place_of g 0))
        × (call_bytes g results types v
        ≡ stored g (fields tuple_type types) v (place_of g 0) 1 0) }
{}

/// A list asks once for as many bytes as its elements have, at their alignment, before what these
/// ask for; and parameters that take more than 16 core values ask first for the tuple of them
/// (CanonicalABI.md, "Storing", `store_list_into_range`, and "Lifting and Lowering Values",
/// `lower_flat_values`).
pub fn lists_and_tuples_ask_for_memory()
    ensures elements { (source target : StringEncoding) (tags : List Bool) (t : Ty) (vs : Vals)
        → part_requests source target tags (parts_in (list t) (elements vs))
        ≡ fresh (align_of t) (count_of vs * size_of t)
        ∷ part_requests source target tags (parts_each (parts_in t) vs) }
    ensures tuple { (source target : StringEncoding) (tags : List Bool) (types : Fields) (v : Val)
        → 16 < length (flat_of_fields types) → requests params types v source target tags
        ≡ fresh (align_of (fields tuple_type types)) (size_of (fields tuple_type types))
        ∷ part_requests source target tags (parts_in (fields tuple_type types) v) }
    ensures flat { (source target : StringEncoding) (tags : List Bool) (types : Fields) (v : Val)
        → length (flat_of_fields types) ≤ 16 → requests params types v source target tags
        ≡ part_requests source target tags (parts_in (fields tuple_type types) v) }
{}

/// Of a string the pointer is stored, which is the place that was given, and behind it the length;
/// and at that place stand its units, in a row (CanonicalABI.md, "Storing", `store_string`).
pub fn strings_are_stored()
    ensures utf8 { (memory : List ℕ) (g : Given) (scalars : List ℕ) (p k h : ℕ)
        → AreBytes memory → g.charset ≡ utf8
        → place_of g k + length (utf8_units scalars) ≤ length memory → length memory < 2 ^ 32
        → Holds memory (stored g string (text scalars) p k h)
        → StandsAt memory p 4 (place_of g k)
        × StandsAt memory (p + 4) 4 (length (utf8_units scalars))
        × StandInRow memory (place_of g k) 1 (utf8_units scalars) }
    ensures utf16 { (memory : List ℕ) (g : Given) (scalars : List ℕ) (p k h : ℕ)
        → AreBytes memory → g.charset ≡ utf16
        → place_of g k + 2 * length (utf16_units scalars) ≤ length memory
        → length memory < 2 ^ 32 → Holds memory (stored g string (text scalars) p k h)
        → StandsAt memory p 4 (place_of g k)
        × StandsAt memory (p + 4) 4 (length (utf16_units scalars))
        × StandInRow memory (place_of g k) 2 (utf16_units scalars) }
{}

/// Of a list the pointer is stored, which is the place that was given, and behind it the length,
/// and each element stands there, at its number times the size of an element; those of a list of
/// fixed length stand in place, and each field at its offset (CanonicalABI.md, "Storing",
/// `store_list` and `store_record`). The part and the handle that a field or an element begins with
/// are some of those given.
pub fn lists_and_fields_are_stored()
    ensures list { (memory : List ℕ) (g : Given) (t : Ty) (vs : Vals) (p k h : ℕ)
        → place_of g k < 2 ^ 32 → count_of vs < 2 ^ 32
        → Holds memory (stored g (list t) (elements vs) p k h)
        → StandsAt memory p 4 (place_of g k) × StandsAt memory (p + 4) 4 (count_of vs)
        × ((i : ℕ) → i < count_of vs → (a : ℕ) × (b : ℕ)
        × Holds memory (stored g t (value_at vs i) (place_of g k + i * size_of t) a b)) }
    ensures fixed { (memory : List ℕ) (g : Given) (t : Ty) (n : ℕ) (vs : Vals) (p k h : ℕ)
        → Holds memory (stored g (fixed_list t n) (parts vs) p k h)
        → (i : ℕ) → i < count_of vs → (a : ℕ) × (b : ℕ)
        × Holds memory (stored g t (value_at vs i) (p + i * size_of t) a b) }
    ensures fields { (memory : List ℕ) (g : Given) (x : FieldsKind) (fs : Fields)
        (offset : ℕ → ℕ) (vs : Vals) (p k h : ℕ) → AreOffsets fs offset
        → count_of vs ≡ field_count fs → Holds memory (stored g (fields x fs) (parts vs) p k h)
        → (i : ℕ) → i < field_count fs → (a : ℕ) × (b : ℕ)
        × Holds memory (stored g (field_type fs i) (value_at vs i) (p + offset i) a b) }
{}

/// The number of a case is stored in the least bytes that serve, and what it carries at its offset;
/// of a handle the number that was given for it, in 4 bytes (CanonicalABI.md, "Storing",
/// `store_variant`, `lower_own` and `lower_borrow`).
pub fn cases_and_handles_are_stored()
    ensures bare { (memory : List ℕ) (g : Given) (x : CasesKind) (cs : Cases) (i b p k h : ℕ)
        → case_count cs ≤ 2 ^ 32 → IsLeastBytes (λ x. case_count cs ≤ 256 ^ x) b
        → i < case_count cs → Holds memory (stored g (cases x cs) (bare i) p k h)
        → StandsAt memory p b i }
    ensures bearing { (memory : List ℕ) (g : Given) (x : CasesKind) (cs : Cases)
        (i b a offset p k h : ℕ) (v : Val) (t : Ty) → case_count cs ≤ 2 ^ 32
        → IsLeastBytes (λ x. case_count cs ≤ 256 ^ x) b → IsGreatestAlignment cs a
        → IsLeastMultiple a b offset → i < case_count cs → IsCase cs i (Some t)
        → Holds memory (stored g (cases x cs) (bearing i v) p k h)
        → StandsAt memory p b i × Holds memory (stored g t v (p + offset) k h) }
    ensures own { (memory : List ℕ) (g : Given) (r : ResourceId) (e : HandleValue) (p k h : ℕ)
        → number_of g h < 2 ^ 32 → Holds memory (stored g (own r) (handle e) p k h)
        → StandsAt memory p 4 (number_of g h) }
    ensures borrow { (memory : List ℕ) (g : Given) (r : ResourceId) (e : HandleValue)
        (p k h : ℕ) → number_of g h < 2 ^ 32
        → Holds memory (stored g (borrow r) (handle e) p k h)
        → StandsAt memory p 4 (number_of g h) }
{
    sizes_of_numbers();
}

/// Of a string and of a list the pointer is passed, which is the place that was given, and then the
/// length (CanonicalABI.md, "Flat Lowering", `lower_flat_string` and `lower_flat_list`).
pub fn strings_and_lists_are_lowered_flat()
    ensures utf8 { (slots : List CoreValue) (g : Given) (scalars : List ℕ) (s k h : ℕ)
        → g.charset ≡ utf8 → s + 1 < length slots
        → SlotsHold slots (slots_of g string (text scalars) s k h)
        → IsCore slots s (place_of g k) × IsCore slots (s + 1) (length (utf8_units scalars)) }
    ensures utf16 { (slots : List CoreValue) (g : Given) (scalars : List ℕ) (s k h : ℕ)
        → g.charset ≡ utf16 → s + 1 < length slots
        → SlotsHold slots (slots_of g string (text scalars) s k h)
        → IsCore slots s (place_of g k) × IsCore slots (s + 1) (length (utf16_units scalars)) }
    ensures list { (slots : List CoreValue) (g : Given) (t : Ty) (vs : Vals) (s k h : ℕ)
        → s + 1 < length slots → SlotsHold slots (slots_of g (list t) (elements vs) s k h)
        → IsCore slots s (place_of g k) × IsCore slots (s + 1) (count_of vs) }
{}

/// Of a handle the number is passed that was given for it; the number of a case, and behind it what
/// it carries (CanonicalABI.md, "Flat Lowering", `lower_flat_variant`).
pub fn handles_and_cases_are_lowered_flat()
    ensures own { (slots : List CoreValue) (g : Given) (r : ResourceId) (e : HandleValue)
        (s k h : ℕ) → s < length slots → SlotsHold slots (slots_of g (own r) (handle e) s k h)
        → IsCore slots s (number_of g h) }
    ensures borrow { (slots : List CoreValue) (g : Given) (r : ResourceId) (e : HandleValue)
        (s k h : ℕ) → s < length slots
        → SlotsHold slots (slots_of g (borrow r) (handle e) s k h)
        → IsCore slots s (number_of g h) }
    ensures bare { (slots : List CoreValue) (g : Given) (x : CasesKind) (cs : Cases)
        (i s k h : ℕ) → s < length slots
        → SlotsHold slots (slots_of g (cases x cs) (bare i) s k h) → IsCore slots s i }
    ensures bearing { (slots : List CoreValue) (g : Given) (x : CasesKind) (cs : Cases)
        (i s k h : ℕ) (v : Val) (t : Ty) → s < length slots → IsCase cs i (Some t)
        → SlotsHold slots (slots_of g (cases x cs) (bearing i v) s k h)
        → IsCore slots s i × SlotsHold slots (slots_of g t v (s + 1) k h) }
{}

/// Each field is passed from its first core value on (CanonicalABI.md, "Flat Lowering",
/// `lower_flat_record`). The part and the handle that a field begins with are some of those given.
pub fn fields_are_lowered_flat()
    ensures fields { (slots : List CoreValue) (g : Given) (x : FieldsKind) (fs : Fields)
        (first : ℕ → ℕ) (vs : Vals) (s k h : ℕ) → AreFirst fs first
        → count_of vs ≡ field_count fs
        → SlotsHold slots (slots_of g (fields x fs) (parts vs) s k h)
        → (i : ℕ) → i < field_count fs → (a : ℕ) × (b : ℕ)
        × SlotsHold slots (slots_of g (field_type fs i) (value_at vs i) (s + first i) a b) }
{}
