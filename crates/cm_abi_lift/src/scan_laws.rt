//! What records mean, as laws: each function here does nothing, and its contract is the law.

ghost use Rattle.std.specs.Prelude.{ℕ};
ghost use Rattle.cm_types.specs.Types.{Ty};
ghost use Rattle.cm_types.specs.Values.{Val};
ghost use Rattle.cm_layout.specs.Shapes.{shape_of_type};
ghost use Rattle.cm_abi_model.specs.declared.encoding.StringEncoding.{StringEncoding};
ghost use Rattle.cm_abi_model.specs.Parts.{parts_in};
ghost use Rattle.cm_abi_model.specs.Shows.{Shows};
ghost use Rattle.cm_abi_model.specs.Views.{View};
ghost use Rattle.cm_abi_load.specs.Reading.{seen_by};
ghost use Rattle.cm_abi_model.specs.Places.{places_at};
ghost use Rattle.cm_abi_lift.specs.Records.{records_at};
ghost use Rattle.cm_abi_lift.specs.Telling.{ElementsAreTold, TextIsTold};
ghost use Rattle.cm_abi_model.specs.Telling.{TellAll};

use cm_abi_load::laws::numbers_are_sized;

/// The records of a value that bytes at an address show tell its parts, one for one and in order:
/// each stands at its pointer in the source, with so many units or elements there, and takes so
/// many bytes where strings are stored in the encoding `target`.
pub fn records_tell_parts()
    ensures { (w : View) (target : StringEncoding) (t : Ty) (p : ℕ) (v : Val) → Shows w t p v
        → TellAll w target (records_at (seen_by w) target (shape_of_type t) p v) (parts_in t v)
        (places_at w t p v) }
{
    numbers_are_sized();
}

/// The records of a string and of the elements of a list that are shown at a pointer, wherever it
/// stands.
pub fn parts_that_are_shown_are_told()
    ensures text { TextIsTold }
    ensures elements { ElementsAreTold }
{
    numbers_are_sized();
}
