//! What holds of the definitions, as laws: each function here does nothing, and its contract is the
//! law.

ghost use Rattle.std.specs.Prelude.{◌≡◌, ℕ, List, Some, length};
ghost use Rattle.cm_binary_model.specs.Trees.{SectionTree};
ghost use Rattle.cm_validate_model.specs.Definitions.{InstanceTy};
ghost use Rattle.cm_validate_model.specs.Spaces.{Spaces, spaces_of};
ghost use Rattle.cm_validate_model.specs.CountedSpaces.{IsInstanceCounted};
ghost use Rattle.cm_validate_items.specs.Shared.{AreShared, IsImportOf, export_at};
ghost use Rattle.cm_validate_items.specs.Shared.{exported_instance_in};
ghost use Rattle.cm_validate_items.specs.Shared.{import_type_in};
ghost use Rattle.cm_validate_items.specs.declared.shared.Shared.{Shared};

use cm_validate_model::counted_laws::resources_are_counted;

/// Imports with one number are instances of one type, and exports with one number are one instance.
pub fn equal_numbers_are_one()
    ensures imports { (s : Spaces) (w : Shared) (j k r : ℕ) → AreShared s w
        → import_type_in w j ≡ Some r → import_type_in w k ≡ Some r
        → (i : InstanceTy) × IsImportOf s j i × IsImportOf s k i }
    ensures exports { (s : Spaces) (w : Shared) (j k r : ℕ) → AreShared s w
        → exported_instance_in w j ≡ Some r → exported_instance_in w k ≡ Some r
        → export_at s j ≡ export_at s k }
{}

/// The type that imports with one number are instances of names only resources that the component
/// had before it, and its own, which it brings one after another.
pub fn types_of_imports_are_counted()
    ensures { (sections : List SectionTree) (w : Shared) (j k r : ℕ)
        → AreShared (spaces_of sections) w
        → import_type_in w j ≡ Some r → import_type_in w k ≡ Some r
        → (i : InstanceTy) × IsInstanceCounted (length (spaces_of sections).resources) i
        × IsImportOf (spaces_of sections) j i × IsImportOf (spaces_of sections) k i }
{
    resources_are_counted();
}
