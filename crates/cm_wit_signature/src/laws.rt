//! What follows where names lead to no type, as a law: the function here does nothing, and its
//! contract is the law.

ghost use Rattle.std.specs.Prelude.{List};
ghost use Rattle.cm_wit_reading.specs.Trees.{File};
ghost use Rattle.cm_wit_worlds.specs.Interfaces.{PlacedWorld};
ghost use Rattle.cm_wit_tables.specs.Worlds.{Instance};
ghost use Rattle.cm_wit_worlds.specs.Worlds.{HasNoInterface};
ghost use Rattle.cm_wit_worlds.specs.declared.fault.WorldFault.{WorldFault};
ghost use Rattle.cm_wit_signature.specs.Faults.{IsFaultIn};
ghost use Rattle.cm_wit_signature.specs.Named.{AreInstances};
ghost use Rattle.cm_wit_signature.specs.Typing.{IsTypingFault};

/// Where each path leads to an interface, and a name in the instances of a world leads to no type,
/// that is the fault of the world.
pub fn typing_faults_are_of_worlds()
    ensures { (fs : List File) (w : PlacedWorld) (xs : List Instance) (f : WorldFault)
        → (HasNoInterface fs w → ⊥) → AreInstances fs w xs → IsTypingFault fs w xs f
        → IsFaultIn fs w f }
{}
