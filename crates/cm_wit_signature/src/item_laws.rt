//! What holds of items whose types stand in an arena, as laws: each function here does nothing, and
//! its contract is the law.

ghost use Rattle.std.specs.Prelude.{◌≡◌, List, Option, true, length};
ghost use Rattle.cm_types_arena.specs.Shared.{are_shared_items_there, shared_items_of};
ghost use Rattle.cm_types_arena.specs.declared.shared.SharedItems.{SharedItems};
ghost use Rattle.cm_types.specs.Types.{FuncTy, Ty};
ghost use Rattle.cm_wit_meanings.specs.Places.{ArePlaced, Extends, table_in};
ghost use Rattle.cm_wit_meanings.specs.declared.scope.Meaning.{Meaning};

/// Items stay what they are where types, and those of functions, are added to the arena.
pub fn items_stay()
    ensures same { (types more : List Ty) (funcs further : List FuncTy) (is : SharedItems)
        → Extends types more → Extends funcs further
        → are_shared_items_there (length types) (length funcs) is.items.items ≡ true
        → shared_items_of more further is ≡ shared_items_of types funcs is }
    ensures there { (types more : List Ty) (funcs further : List FuncTy) (is : SharedItems)
        → Extends types more → Extends funcs further
        → are_shared_items_there (length types) (length funcs) is.items.items ≡ true
        → are_shared_items_there (length more) (length further) is.items.items ≡ true }
{}

/// What names stand for stays what it is where types are added to the arena.
pub fn tables_stay()
    ensures same { (types more : List Ty) (table : List (Option Meaning))
        → Extends types more → ArePlaced (length types) table
        → table_in more table ≡ table_in types table }
    ensures placed { (types more : List Ty) (table : List (Option Meaning))
        → Extends types more → ArePlaced (length types) table → ArePlaced (length more) table }
{}
