//! Types that hold no other type.

ghost use Rattle.std.specs.Prelude.{◌≡◌};
ghost use Rattle.cm_types_arena.specs.TypeDefs as arena;
ghost use Rattle.cm_wit_meanings.specs.Meanings.{primitive_type};

use cm_types_arena::Primitive;
use cm_wit_reading::Primitive as Written;

/// The primitive type that a text names.
pub fn primitive(written: Written) -> Primitive
    ensures { arena.primitive_type result ≡ primitive_type written }
{
    match written {
        Written::Bool => Primitive::Bool,
        Written::S8 => Primitive::S8,
        Written::S16 => Primitive::S16,
        Written::S32 => Primitive::S32,
        Written::S64 => Primitive::S64,
        Written::U8 => Primitive::U8,
        Written::U16 => Primitive::U16,
        Written::U32 => Primitive::U32,
        Written::U64 => Primitive::U64,
        Written::Char => Primitive::Char,
        Written::String => Primitive::String,
    }
}
