//! Types that hold no other type.

ghost use Rattle.std.specs.Prelude.{◌≡◌};
ghost use Rattle.cm_types_arena.specs.TypeDefs.{primitive_place};

/// A primitive type (Binary.md, "Type Definitions").
#[derive(Clone, Copy, Debug, PartialEq, Eq)]
pub enum Primitive {
    Bool,
    S8,
    U8,
    S16,
    U16,
    S32,
    U32,
    S64,
    U64,
    Char,
    String,
}

impl Primitive {
    /// Its place in an arena.
    pub(crate) fn place(self) -> usize
        ensures { result ≡ primitive_place self }
    {
        self as usize
    }
}

/// The primitive types, each at its place in an arena.
pub(crate) const PRIMITIVES: [Primitive; 11] = [
    Primitive::Bool,
    Primitive::S8,
    Primitive::U8,
    Primitive::S16,
    Primitive::U16,
    Primitive::S32,
    Primitive::U32,
    Primitive::S64,
    Primitive::U64,
    Primitive::Char,
    Primitive::String,
];
