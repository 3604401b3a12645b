//! Signatures.

ghost use Rattle.std.specs.Prelude.{◌≡◌, true};
ghost use Rattle.cm_types_arena.specs.Listed.{are_in};

use crate::Externs;
use crate::types::Types;

/// What a component, or a world, imports and exports, each in its order (Binary.md, "Import and
/// Export Definitions"; WIT.md, "Worlds"). Their types stand in one arena, each once; the items of
/// an instance of a component are shared by all imports and exports of its type.
#[derive(Drop)]
pub struct Signature {
    types: Types,
    imports: Externs,
    exports: Externs,
    ghost imports_there: { are_in types imports ≡ true },
    ghost exports_there: { are_in types exports ≡ true },
}

impl Signature {
    ghost use Rattle.cm_types_arena.specs.Listed.{externs_listed};
    ghost use Rattle.cm_types_arena.specs.Signatures.{exports_in, imports_in};

    /// These imports and exports, whose places are of this arena.
    pub fn new(types: Types, imports: Externs, exports: Externs) -> Signature
        requires imports { are_in types imports ≡ true }
        requires exports { are_in types exports ≡ true }
        ensures imports { imports_in result ≡ externs_listed types imports }
        ensures exports { exports_in result ≡ externs_listed types exports }
    {
        Signature {
            types,
            imports,
            exports,
        }
    }

    /// The arena of its types.
    pub fn types(&self) -> &Types
        ensures { result.now ≡ self.now.types }
    {
        &self.types
    }

    /// What is imported, in order.
    pub fn imports(&self) -> &Externs
        ensures externs { externs_listed self.now.types result.now ≡ imports_in self.now }
        ensures there { are_in self.now.types result.now ≡ true }
    {
        &self.imports
    }

    /// What is exported, in order.
    pub fn exports(&self) -> &Externs
        ensures externs { externs_listed self.now.types result.now ≡ exports_in self.now }
        ensures there { are_in self.now.types result.now ≡ true }
    {
        &self.exports
    }
}
