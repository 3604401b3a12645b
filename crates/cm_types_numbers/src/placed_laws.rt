//! What holds of what is known, as a law: the function does nothing, and its contract is the law.

ghost use Rattle.cm_types_arena.specs.Replaced.{Standing};
ghost use Rattle.cm_types_arena.specs.declared.types.Types.{Types};
ghost use Rattle.cm_types_numbers.specs.Numbering.{Extends, Numbering};
ghost use Rattle.cm_types_numbers.specs.PlacedTables.{KnowsPlaced};
ghost use Rattle.cm_types_numbers.specs.declared.known_placed.KnownPlaced.{KnownPlaced};

use crate::laws::numbers_stay;

/// What is known of types stays right while a table of numbers grows.
pub fn known_stays()
    ensures { (old new : Numbering) (s : Standing) (types : Types) (known : KnownPlaced)
        → Extends old new → KnowsPlaced old s types known → KnowsPlaced new s types known }
{
    numbers_stay();
}
