//! What holds of nodes that need others, as laws: each function here does nothing, and its contract
//! is the law.

ghost use Rattle.std.specs.Prelude.{◌≡◌, ℕ};
ghost use Rattle.cm_wit_graph.specs.Orders.{IsRanked, IsWithin, Needs, NeedsItself};

/// Where no node needs itself, by way of others or not, nodes can be ranked above those that they
/// need.
pub fn nodes_can_be_ranked()
    ensures { (count : ℕ) (needs : Needs) → IsWithin count needs
        → ((k : ℕ) → NeedsItself needs k → ⊥) → (rank : ℕ → ℕ) × IsRanked needs rank }
{}
