//! What storing by a layout means, as laws: each function here does nothing, and its contract is
//! the law.

ghost use Rattle.std.specs.Prelude.{◌≡◌, ◌+◌, ◌<◌, ◌≤◌, ◌^◌, List, length, ℕ};
ghost use Rattle.cm_types.specs.Types.{Fields, Ty};
ghost use Rattle.cm_types.specs.Values.{HasType, Val};
ghost use Rattle.cm_layout.specs.Shapes.{LayoutTy, layout_of_fields_at, shape_of_type};
ghost use Rattle.cm_abi_model.specs.FlatShows.{width_of};
ghost use Rattle.cm_abi_model.specs.Parts.{handle_count, part_count, parts_in};
ghost use Rattle.cm_abi_model.specs.Receives.{Serves, behind, call_bytes, call_kinds};
ghost use Rattle.cm_abi_model.specs.Receives.{call_numbers, put, slots_of};
ghost use Rattle.cm_abi_model.specs.Regions.{ArePlaced};
ghost use Rattle.cm_abi_model.specs.Requests.{call_parts, stored_charset, tuple_of};
ghost use Rattle.cm_abi_model.specs.Stores.{Framed, Given, Holds, number_of, place_of};
ghost use Rattle.cm_abi_model.specs.Stores.{poke, stored};
ghost use Rattle.cm_abi_model.specs.Views.{View, Way, flat_limit};
ghost use Rattle.cm_abi_model.specs.declared.encoding.StringEncoding.{StringEncoding};
ghost use Rattle.cm_abi_store.specs.Calls.{IsFlatTuple, IsProvided, IsSpilledTuple};
ghost use Rattle.cm_abi_store.specs.Fitting.{Fits};
ghost use Rattle.cm_abi_store.specs.FlatLowering.{IsPassedIn, behind_by, slots_by};
ghost use Rattle.cm_abi_store.specs.Kinds.{FitKinds};
ghost use Rattle.cm_abi_store.specs.Storing.{stored_by};

use cm_layout::laws::layouts;

/// By the layout of a type the same bytes are stored of its values as by the type, each at the
/// same address.
fn layouts_store_what_types_do()
    ensures { (g : Given) (t : Ty) (v : Val) (p k h : ℕ) → HasType t v
        → stored_by g (shape_of_type t) v p k h ≡ stored g t v p k h }
{}

/// By the layout of a type a value is passed as the same numbers in the same slots as by the type,
/// with the same bytes behind them.
fn layouts_pass_what_types_do()
    ensures slots { (g : Given) (t : Ty) (v : Val) (s k h : ℕ) → HasType t v
        → slots_by g (shape_of_type t) v s k h ≡ slots_of g t v s k h }
    ensures behind { (g : Given) (t : Ty) (v : Val) (k h : ℕ) → HasType t v
        → behind_by g (shape_of_type t) v k h ≡ behind g t v k h }
{}

/// What a type holds has its slots within those of the type.
fn layouts_are_passed()
    ensures { (t : Ty) → IsPassedIn (width_of t) (shape_of_type t) }
{
    layouts();
}

/// A value fits by the layout of its type where each of its parts has a place in the memory, and
/// each of its handles a number.
fn placed_values_fit()
    ensures { (target : StringEncoding) (n : ℕ) (g : Given) (t : Ty) (v : Val) (k h : ℕ)
        → HasType t v → g.charset ≡ stored_charset target
        → ArePlaced target n g k (parts_in t v)
        → k + part_count v ≤ length g.places → h + handle_count v ≤ length g.numbers
        → Fits n g (shape_of_type t) v k h }
{}

/// Where the tuple of the types takes more core values than are passed flat, a value that is
/// provided for is stored by the layout of the tuple, at the place of the first part; its bytes are
/// those of the call, and that place is the one number that is passed.
pub fn spilled_tuples_are_stored()
    ensures ready { (l : LayoutTy) (way : Way) (types : Fields) (limit : ℕ) (v : Val)
        (target : StringEncoding) (g : Given) (n slots : ℕ)
        → limit ≡ flat_limit way → l ≡ layout_of_fields_at types
        → g.charset ≡ stored_charset target → IsProvided way types v target g n slots
        → limit < l.head.width → IsSpilledTuple l v g n slots }
    ensures bytes { (l : LayoutTy) (way : Way) (types : Fields) (limit : ℕ) (v : Val) (g : Given)
        → limit ≡ flat_limit way → l ≡ layout_of_fields_at types → HasType (tuple_of types) v
        → limit < l.head.width
        → stored_by g l.shape v (place_of g 0) 1 0 ≡ call_bytes g way types v }
    ensures numbers { (l : LayoutTy) (way : Way) (types : Fields) (limit : ℕ) (v : Val) (g : Given)
        → limit ≡ flat_limit way → l ≡ layout_of_fields_at types → HasType (tuple_of types) v
        → limit < l.head.width → put 0 (place_of g 0) ≡ call_numbers g way types v }
{
    layouts();
    placed_values_fit();
    layouts_store_what_types_do();
}

/// Else a value that is provided for is passed by that layout; its numbers are those of the call,
/// and so are the bytes behind them.
pub fn flat_tuples_are_passed()
    ensures ready { (l : LayoutTy) (way : Way) (types : Fields) (limit : ℕ) (v : Val)
        (target : StringEncoding) (g : Given) (n slots : ℕ)
        → limit ≡ flat_limit way → l ≡ layout_of_fields_at types
        → g.charset ≡ stored_charset target → IsProvided way types v target g n slots
        → l.head.width ≤ limit → IsFlatTuple l v g n slots }
    ensures bytes { (l : LayoutTy) (way : Way) (types : Fields) (limit : ℕ) (v : Val) (g : Given)
        → limit ≡ flat_limit way → l ≡ layout_of_fields_at types → HasType (tuple_of types) v
        → l.head.width ≤ limit → behind_by g l.shape v 0 0 ≡ call_bytes g way types v }
    ensures numbers { (l : LayoutTy) (way : Way) (types : Fields) (limit : ℕ) (v : Val) (g : Given)
        → limit ≡ flat_limit way → l ≡ layout_of_fields_at types → HasType (tuple_of types) v
        → l.head.width ≤ limit → slots_by g l.shape v 0 0 0 ≡ call_numbers g way types v }
{
    layouts_are_passed();
    placed_values_fit();
    layouts_pass_what_types_do();
}

/// Where there is a slot for each core value, passing a value leaves each of its numbers in its
/// slot, and changes no other.
pub fn what_is_passed_stays()
    ensures { (way : Way) (types : Fields) (g : Given) (v : Val) (slots : List ℕ)
        → HasType (tuple_of types) v → length (call_kinds way types) ≤ length slots
        → Holds (poke (call_numbers g way types v) slots) (call_numbers g way types v)
        × Framed slots (poke (call_numbers g way types v) slots)
        (call_numbers g way types v) }
{}

/// Where what is given for a lowering serves it, and places and numbers have 32 bits, each number
/// that passes a value fits the kind of its slot.
pub fn what_is_passed_fits()
    ensures { (w : View) (way : Way) (types : Fields) (g : Given) (v : Val) (slots : List ℕ)
        → HasType (tuple_of types) v → g.charset ≡ stored_charset w.encoding
        → Serves w way types g v
        → ArePlaced w.encoding (length w.memory) g 0 (call_parts way types v)
        → ((k : ℕ) → place_of g k < 2 ^ 32) → ((h : ℕ) → number_of g h < 2 ^ 32)
        → FitKinds (call_kinds way types) slots
        → FitKinds (call_kinds way types) (poke (call_numbers g way types v) slots) }
{}
