//! What holds of pieces and pages, as laws: each function here does nothing, and its contract is
//! the law.

ghost use Rattle.std.specs.Prelude.{◌≡◌, ◌++◌, [], List};
ghost use Rattle.cm_types.specs.declared.resource.ResourceId.{ResourceId};
ghost use Rattle.cm_tool_show.specs.Pages.{IsOver};
ghost use Rattle.cm_tool_show.specs.Pieces.{Piece, seen_behind, text_behind};
ghost use Rattle.cm_tool_show.specs.declared.page.Page.{Page};
ghost use Rattle.cm_tool_show.specs.Written.{Wrote};

/// Pieces behind others are numbered behind them.
pub fn pieces_join()
    ensures text { (seen : List ResourceId) (a b : List Piece) → text_behind seen (a ++ b)
        ≡ text_behind seen a ++ text_behind (seen_behind seen a) b }
    ensures seen { (seen : List ResourceId) (a b : List Piece)
        → seen_behind seen (a ++ b) ≡ seen_behind (seen_behind seen a) b }
{}

/// Writing pieces and then more is writing all of them; a text that is too long with some pieces is
/// too long with more.
pub fn pages_join()
    ensures none { (p : Page) → Wrote [] p p }
    ensures more { (a b : List Piece) (p q r : Page) → Wrote a p q → Wrote b q r
        → Wrote (a ++ b) p r }
    ensures over { (a b c : List Piece) (p q : Page) → Wrote a p q → IsOver q b
        → IsOver p (a ++ (b ++ c)) }
{}
