//! What holds of texts with numbered resources, as laws: each function here does nothing, and its
//! contract is the law.

ghost use Rattle.std.specs.Prelude.{◌≡◌, List};
ghost use Rattle.cm_tool_show.specs.Pieces.{Piece, number_behind, order_of, text_of, text_with};

/// A resource has one number wherever it appears: its place among the resources, in the order of
/// their first appearance.
pub fn numbers_are_places()
    ensures { (ps : List Piece) → text_of ps ≡ text_with (number_behind (order_of ps)) ps }
{}
