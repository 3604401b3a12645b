//! What holds of places, as laws: each function here does nothing, and its contract is the law.

ghost use Rattle.std.specs.Prelude.{◌≡◌, ℕ, List, length, true};
ghost use Rattle.std.specs.List.{AllByRecursion};
ghost use Rattle.cm_types.specs.Types.{FuncTy, Ty};
ghost use Rattle.cm_types_arena.specs.Instances.{are_items_there, items_of};
ghost use Rattle.cm_types_arena.specs.declared.instances.Item.{Item};
ghost use Rattle.cm_validate_model.specs.CountedSpaces.{IsDefCounted};
ghost use Rattle.cm_validate_types.specs.declared.entries.TypeEntry.{TypeEntry};
ghost use Rattle.cm_validate_types.specs.declared.scope.TypeScope.{TypeScope};
ghost use Rattle.cm_validate_types.specs.Entries.{def_of, in_arena};
ghost use Rattle.cm_validate_types.specs.Settled.{AreItemsSettled, IsEntrySettled};
ghost use Rattle.cm_validate_types.specs.SettledScopes.{AreSettled, IsMovedCounted};
ghost use Rattle.cm_validate_types.specs.TypeScopes.{Extends, HasGrown, entries_of};

/// Items whose places are in an arena stay what they are while it grows.
pub fn items_stay()
    ensures items { (t u : List Ty) (f g : List FuncTy) (items : List Item)
        → Extends t u → Extends f g
        → are_items_there (length t) (length f) items ≡ true
        → items_of u g items ≡ items_of t f items }
    ensures there { (t u : List Ty) (f g : List FuncTy) (items : List Item)
        → Extends t u → Extends f g
        → are_items_there (length t) (length f) items ≡ true
        → are_items_there (length u) (length g) items ≡ true }
{}

/// Types that moves brought count their resources as before while the arena grows. Where an index
/// stands for a type that names only the first so many resources, so does what a move made of it.
pub fn moves_stay()
    ensures items { (t u : List Ty) (f g : List FuncTy) (first : ℕ) (items : List Item)
        → Extends t u → Extends f g
        → are_items_there (length t) (length f) items ≡ true
        → AreItemsSettled t f first items → AreItemsSettled u g first items }
    ensures entries { (t u : List Ty) (f g : List FuncTy) (es : List TypeEntry)
        → Extends t u → Extends f g → in_arena t f es ≡ true
        → AllByRecursion (IsEntrySettled t f) es → AllByRecursion (IsEntrySettled u g) es }
    ensures scopes { (old new : TypeScope) → HasGrown old new → entries_of new ≡ entries_of old
        → AreSettled old → AreSettled new }
    ensures counted { (types : List Ty) (funcs : List FuncTy) (n : ℕ) (e : TypeEntry)
        → IsDefCounted n (def_of types funcs e) → IsMovedCounted types funcs n e }
{}
