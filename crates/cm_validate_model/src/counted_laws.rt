//! What holds of the resources that types name, as laws: each function here does nothing, and its
//! contract is the law.

ghost use Rattle.std.specs.Prelude.{◌≡◌, ◌+◌, ℕ, List, map};
ghost use Rattle.cm_binary_model.specs.Trees.{SectionTree};
ghost use Rattle.cm_types.specs.Types.{FuncTy, Ty};
ghost use Rattle.cm_types_arena.specs.Moves.{moved as moved_range};
ghost use Rattle.cm_types_arena.specs.Replaced.{replaced, replaced_func};
ghost use Rattle.cm_validate_model.specs.Definitions.{InstanceTy};
ghost use Rattle.cm_validate_model.specs.Items.{Item};
ghost use Rattle.cm_validate_model.specs.Moves.{moved, moved_func, moved_type};
ghost use Rattle.cm_validate_model.specs.Spaces.{after_items, empty_spaces, spaces_of};
ghost use Rattle.cm_validate_model.specs.Counted.{IsCounted, IsFuncCounted};
ghost use Rattle.cm_validate_model.specs.CountedSpaces.{AreSpacesCounted, IsInstanceCounted};
ghost use Rattle.cm_validate_model.specs.CountedSpaces.{fresh_numbers, numbers_from};

/// Wherever in a component, and whether it is valid or not: each type in the index spaces names
/// only resources that the component has so far, and the type of an instance numbers the resources
/// that it brings one after another.
pub fn resources_are_counted()
    ensures before { (front : List Item) → AreSpacesCounted (after_items empty_spaces front) }
    ensures whole { (sections : List SectionTree) → AreSpacesCounted (spaces_of sections) }
{}

/// What an import makes of a type of an instance is the type with the resources in its range moved;
/// one that names no resource of the instance's own stays; and the resources that it brings become
/// the next ones, in their order.
pub fn moves_of_what_is_counted()
    ensures types { (i : InstanceTy) (next : ℕ) (t : Ty) → IsCounted (i.first + i.fresh) t
        → moved_type i next t ≡ replaced (moved_range i.first i.fresh next) t }
    ensures funcs { (i : InstanceTy) (next : ℕ) (f : FuncTy) → IsFuncCounted (i.first + i.fresh) f
        → moved_func i next f ≡ replaced_func (moved_range i.first i.fresh next) f }
    ensures stay { (i : InstanceTy) (next : ℕ) (t : Ty) → IsCounted i.first t
        → moved_type i next t ≡ t }
    ensures fresh { (n : ℕ) (i : InstanceTy) (next : ℕ) → IsInstanceCounted n i
        → map (moved i next) (fresh_numbers i.items) ≡ numbers_from next i.fresh }
{}
