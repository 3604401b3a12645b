//! What holds of layouts by place, as laws: each function here does nothing, and its contract is
//! the law.

ghost use Rattle.std.specs.Prelude.{◌≡◌, ◌++◌, [], List, map};
ghost use Rattle.cm_types.specs.Types.{Ty};
ghost use Rattle.cm_layout.specs.Shapes.{LayoutTy, layout_at};
ghost use Rattle.cm_layout_placed.specs.Placed.{AreOfFirst};

/// The layouts of an arena's first types stay theirs while the arena grows.
pub fn first_layouts_stay()
    ensures none { (types : List Ty) → AreOfFirst [] types }
    ensures all { (ls : List LayoutTy) (types : List Ty)
        → ls ≡ map layout_at types → AreOfFirst ls types }
    ensures grown { (ls : List LayoutTy) (types more : List Ty)
        → AreOfFirst ls types → AreOfFirst ls (types ++ more) }
{}
