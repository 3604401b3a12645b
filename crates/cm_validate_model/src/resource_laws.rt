//! What holds of the resources that a component defines, as laws: each function here does nothing,
//! and its contract is the law.

ghost use Rattle.std.specs.Prelude.{◌≡◌, ℕ, List, Option, Some, slice_get};
ghost use Rattle.cm_types.specs.DefTypes.{resource_def};
ghost use Rattle.cm_binary_model.specs.Trees.{SectionTree};
ghost use Rattle.cm_validate_model.specs.Definitions.{defined};
ghost use Rattle.cm_validate_model.specs.Items.{all_items, type_item};
ghost use Rattle.cm_validate_model.specs.Sources.{IsItemAt};
ghost use Rattle.cm_validate_model.specs.Spaces.{Spaces, next_resource, spaces_of};

/// A type definition of a resource defines the component's next resource, with the destructor that
/// it names, if it names one; and wherever it is looked up, the resource of that number is this.
pub fn resources_are_as_defined()
    ensures { (sections : List SectionTree) (s : Spaces) (destructor : Option ℕ)
        → IsItemAt (all_items sections) s (type_item (resource_def destructor))
        → slice_get (spaces_of sections).resources (next_resource s) ≡ Some (defined destructor) }
{}
