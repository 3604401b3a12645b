//! What the rules on names rest on.

ghost use Rattle.std.specs.Prelude.{◌≡◌, ◌↔◌, [], ℕ, List, Option, true};
ghost use Rattle.cm_types.specs.ExternNames.{interface, method, static};
ghost use Rattle.cm_wit_reading.specs.Trees.{File};
ghost use Rattle.cm_wit_names.specs.FileMentions.{is_own_package, own_name};
ghost use Rattle.cm_wit_names.specs.Rules.{folded, own_part};

/// Names of a text are told apart, ASCII case aside, without what they share, and nothing is lost
/// by it: two functions of one resource have the same full name exactly where they have the same
/// name without the resource, and two interfaces of the text's package exactly where they have the
/// same name without the package; and a path to a package of the same name and version leads to
/// what has the full name of the text's own interface.
pub fn names_are_told_by_their_parts()
    ensures methods { (r a b : List ℕ) → (folded (method [] a) ≡ folded (method [] b))
        ↔ (folded (method r a) ≡ folded (method r b)) }
    ensures statics { (r a b : List ℕ) → (folded (static [] a) ≡ folded (static [] b))
        ↔ (folded (static r a) ≡ folded (static r b)) }
    ensures interfaces { (f : File) (a b : List ℕ)
        → (folded (own_part (own_name f a)) ≡ folded (own_part (own_name f b)))
        ↔ (folded (own_name f a) ≡ folded (own_name f b)) }
    ensures own_package { (f : File) (ns pkg text : List ℕ) (version : Option (List ℕ))
        → is_own_package f ns pkg version ≡ true
        → folded (interface ns pkg text version) ≡ folded (own_name f text) }
{}
