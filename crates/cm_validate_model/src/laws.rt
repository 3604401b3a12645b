//! What holds of the definitions, as laws: each function here does nothing, and its contract is the
//! law.

ghost use Rattle.std.specs.Prelude.{◌≡◌, ◌++◌, ◌⊎◌, ℕ, List};
ghost use Rattle.cm_binary_model.specs.Trees.{SectionTree};
ghost use Rattle.cm_validate_model.specs.declared.fault.ValidReason.{ValidReason};
ghost use Rattle.cm_validate_model.specs.Reasons.{least, lesser};
ghost use Rattle.cm_validate_model.specs.Valid.{IsFaultOf, IsValid};

/// The least of two lists of reasons is the lesser of what is least in each.
pub fn least_of_both()
    ensures { (qs rs : List ValidReason) → least (qs ++ rs) ≡ lesser (least qs) (least rs) }
{}

/// A component is valid, or it has a fault; never both, and one fault alone.
pub fn components_have_one_answer()
    ensures either { (sections : List SectionTree) → IsValid sections
        ⊎ ((s : ℕ) × (i : ℕ) × (r : ValidReason) × IsFaultOf sections s i r) }
    ensures never_both { (sections : List SectionTree) (s i : ℕ) (r : ValidReason)
        → IsValid sections → IsFaultOf sections s i r → ⊥ }
    ensures one { (sections : List SectionTree) (s t i j : ℕ) (q r : ValidReason)
        → IsFaultOf sections s i q → IsFaultOf sections t j r → (s ≡ t) × (i ≡ j) × (q ≡ r) }
{}
