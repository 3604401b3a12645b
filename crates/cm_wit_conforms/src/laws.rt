//! What holds of the definitions, as laws: each function here does nothing, and its contract is the
//! law.

ghost use Rattle.std.specs.Prelude.{◌≡◌, ◌↔◌, ◌∷◌, ◌++◌, List};
ghost use Rattle.cm_types.specs.Signatures.{NamedExtern, SignatureTy};
ghost use Rattle.cm_types.specs.Types.{own, borrow};
ghost use Rattle.cm_types.specs.declared.resource.ResourceId.{ResourceId};
ghost use Rattle.cm_wit_conforms.specs.Comparisons.{Entry, entries, two_resources, two_types};
ghost use Rattle.cm_wit_conforms.specs.Conformance.{Conforms, Correspond, Fits, IsFirstFault};
ghost use Rattle.cm_wit_conforms.specs.Conformance.{IsUnasked};
ghost use Rattle.cm_wit_conforms.specs.Itself.{IsWellNamed};
ghost use Rattle.cm_wit_conforms.specs.declared.fault.ConformItem.{ConformItem};
ghost use Rattle.cm_wit_conforms.specs.declared.fault.ConformReason.{ConformReason};

/// Resources correspond one to one: to each corresponds at most one of the other side.
pub fn resources_correspond_one_to_one()
    ensures one_of_the_world { (all : List Entry) (a b c : ResourceId)
        → Correspond all a b → Correspond all a c → b ≡ c }
    ensures one_of_the_signature { (all : List Entry) (a b c : ResourceId)
        → Correspond all a c → Correspond all b c → a ≡ b }
{}

/// Two resources fit exactly where they correspond, and so do their handles: resources that are
/// swapped in one type do not fit.
pub fn handles_fit_where_resources_correspond()
    ensures resources { (all : List Entry) (a b : ResourceId)
        → Fits all (two_resources a b) ↔ Correspond all a b }
    ensures owned { (all : List Entry) (a b : ResourceId)
        → Fits all (two_types (own a) (own b)) ↔ Correspond all a b }
    ensures borrowed { (all : List Entry) (a b : ResourceId)
        → Fits all (two_types (borrow a) (borrow b)) ↔ Correspond all a b }
    ensures never_both { (all : List Entry) (a b : ResourceId)
        → Fits all (two_types (own a) (borrow b)) → ⊥ }
{}

/// A signature that fits a world has no first fault, and one that does not has at most one.
pub fn at_most_one_fault_is_the_first()
    ensures never_both { (have world : SignatureTy) (item : ConformItem) (r : ConformReason)
        → Conforms have world → IsFirstFault have world item r → ⊥ }
    ensures one { (have world : SignatureTy) (i j : ConformItem) (q r : ConformReason)
        → IsFirstFault have world i q → IsFirstFault have world j r → (i ≡ j) × (q ≡ r) }
{}

/// Exports beside those that the world asks for change nothing: all that is compared stays the
/// same, and with it whether the signature fits, and its first fault.
pub fn exports_more_change_nothing()
    ensures { (imports front rest : List NamedExtern) (more : NamedExtern) (world : SignatureTy)
        → IsUnasked world more
        → entries (record { imports = imports; exports = front ++ more ∷ rest }) world
        ≡ entries (record { imports = imports; exports = front ++ rest }) world }
{}

/// A signature fits itself, where each import, export and item is found under its name and each
/// resource in its types is that of an item with a name.
pub fn signatures_fit_themselves()
    ensures { (s : SignatureTy) → IsWellNamed s → Conforms s s }
{}
