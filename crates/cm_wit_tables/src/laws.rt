//! What holds of declarations in an order, as laws: each function here does nothing, and its
//! contract is the law.

ghost use Rattle.std.specs.Prelude.{◌≡◌, ℕ, List, length};
ghost use Rattle.cm_wit_graph.specs.Orders.{IsOrder};
ghost use Rattle.cm_wit_tables.specs.Declarations.{Declaration, HasTypeCycle, IsRanked, uses};

/// Declarations that stand in an order, each behind those that it uses, can be ranked, each above
/// those that it uses.
pub fn ordered_ones_can_be_ranked()
    ensures { (ds : List Declaration) (order : List ℕ) → IsOrder (length ds) (uses ds) order
        → (rank : ℕ → ℕ) × IsRanked ds rank }
{}

/// Where declarations can be ranked, each above those that it uses, none uses itself, by way of
/// others or not.
pub fn ranked_ones_are_acyclic()
    ensures { (ds : List Declaration) (rank : ℕ → ℕ) → IsRanked ds rank → HasTypeCycle ds → ⊥ }
{}
