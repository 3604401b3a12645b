//! What fits a memory, as laws: each function here does nothing, and its contract is the law.

ghost use Rattle.std.specs.Prelude.{◌≡◌, ◌+◌, ◌<◌, Bool, List, length, slice_index, ℕ};
ghost use Rattle.cm_abi_model.specs.Parts.{Part, text_part};
ghost use Rattle.cm_abi_model.specs.Requests.{read_charset, text_bytes};
ghost use Rattle.cm_abi_model.specs.Views.{View};
ghost use Rattle.cm_abi_model.specs.declared.encoding.StringEncoding.{StringEncoding};
ghost use Rattle.cm_abi_model.specs.Telling.{TellAll, Tells};
ghost use Rattle.cm_abi_model.specs.declared.record.PartKind.TheVariants.{Text};
ghost use Rattle.cm_abi_model.specs.declared.record.PartRecord.{PartRecord};
ghost use Rattle.cm_abi.specs.Reads.{AreAllAlike, ReadsBytes};
ghost use Rattle.cm_abi.specs.Inside.{AreInside};
ghost use Rattle.cm_types.specs.Types.{Ty};
ghost use Rattle.cm_types.specs.Values.{HasType, Val};
ghost use Rattle.cm_layout.specs.Shapes.{shape_of_type};
ghost use Rattle.cm_abi_model.specs.Parts.{parts_in};
ghost use Rattle.cm_abi_model.specs.Requests.{stored_charset};
ghost use Rattle.cm_abi_model.specs.Stores.{Given};
ghost use Rattle.cm_abi_store.specs.Fitting.{Fits};

use cm_text::laws::one_list_of_scalars;
use cm_text::{Latin1, Utf8, Utf16};

/// Where a record tells a string, its bytes stand in the memory at its place; so it tells the
/// string of no memory that has another byte there. Of one memory the same records tell the same
/// parts, at the same places: strings of the same characters, and as many elements of as many bytes
/// (CanonicalABI.md, "Loading", `load_string` and `load_list`).
pub fn records_tell_the_memory()
    ensures shown { (w : View) (target : StringEncoding) (r : PartRecord) (tag : Bool)
        (scalars : List ℕ) (at : ℕ) → r.kind ≡ Text tag
        → Tells w target r (text_part scalars) at
        → ReadsBytes w.memory at (text_bytes (read_charset w.encoding tag) scalars) }
    ensures other { (w : View) (target : StringEncoding) (r : PartRecord) (tag : Bool)
        (scalars : List ℕ) (at i : ℕ) → r.kind ≡ Text tag
        → i < length (text_bytes (read_charset w.encoding tag) scalars)
        → (slice_index w.memory (at + i)
        ≡ slice_index (text_bytes (read_charset w.encoding tag) scalars) i → ⊥)
        → Tells w target r (text_part scalars) at → ⊥ }
    ensures parts { (w : View) (target : StringEncoding) (rs : List PartRecord)
        (parts others : List Part) (starts places : List ℕ) → TellAll w target rs parts starts
        → TellAll w target rs others places → AreAllAlike parts others }
    ensures places { (w : View) (target : StringEncoding) (rs : List PartRecord)
        (parts others : List Part) (starts places : List ℕ) → TellAll w target rs parts starts
        → TellAll w target rs others places → starts ≡ places }
{
    one_list_of_scalars::<Utf8>();
    one_list_of_scalars::<Utf16>();
    one_list_of_scalars::<Latin1>();
}

/// Where a value fits a memory of so many bytes, the region of each of its strings and lists lies
/// inside it; so a value fits no memory that ends before one of them does (CanonicalABI.md,
/// "Storing", `store_string` and `store_list`).
pub fn values_fit_their_memory()
    ensures { (target : StringEncoding) (n : ℕ) (g : Given) (t : Ty) (v : Val) (k h : ℕ)
        → HasType t v → g.charset ≡ stored_charset target
        → Fits n g (shape_of_type t) v k h → AreInside target n g k (parts_in t v) }
{}
