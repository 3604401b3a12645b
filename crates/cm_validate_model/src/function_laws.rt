//! What holds of the functions of a component, as laws: each function here does nothing, and its
//! contract is the law.

ghost use Rattle.std.specs.Prelude.{List};
ghost use Rattle.std.specs.List.{AllByRecursion};
ghost use Rattle.cm_binary_model.specs.Trees.{SectionTree};
ghost use Rattle.cm_validate_model.specs.Items.{all_items};
ghost use Rattle.cm_validate_model.specs.Spaces.{spaces_of};
ghost use Rattle.cm_validate_model.specs.Valid.{IsValid};
ghost use Rattle.cm_validate_model.specs.Imported.{IsAsImported, IsLoweredAsImported};
ghost use Rattle.cm_validate_model.specs.Named.{IsCoreWhole, IsLiftWhole, IsResourceWhole};
ghost use Rattle.cm_validate_model.specs.Sources.{IsAdded, IsCoreAdded, OfFunctions};

/// Wherever in the index spaces of a component, valid or not, a function is one that a lift or an
/// import of the component adds, and a core function is a guest's, or one that a canonical
/// definition of the component adds.
pub fn functions_come_from_items()
    ensures { (sections : List SectionTree) → OfFunctions (IsAdded (all_items sections))
        (IsCoreAdded (all_items sections)) (spaces_of sections) }
{}

/// Wherever in the index spaces of a component, valid or not, a function that is imported has the
/// type with which it is imported, and so has a core function that lowers one.
pub fn functions_are_as_imported()
    ensures { (sections : List SectionTree) → OfFunctions (IsAsImported (spaces_of sections))
        (IsLoweredAsImported (spaces_of sections)) (spaces_of sections) }
{
    functions_come_from_items();
}

/// In a valid component, a lift is of a guest's core function, and its result holds no borrow; the
/// options of lifts and lowers name memories and guests' core functions, and they are all that the
/// types need; handles are made, and read, of the component's own resources.
pub fn what_functions_name_is_there()
    ensures { (sections : List SectionTree) → IsValid sections
        → OfFunctions (IsLiftWhole (spaces_of sections)) (IsCoreWhole (spaces_of sections))
        (spaces_of sections) }
{
    functions_come_from_items();
}

/// In a valid component, a destructor is a guest's core function.
pub fn destructors_are_guests()
    ensures { (sections : List SectionTree) → IsValid sections
        → AllByRecursion (IsResourceWhole (spaces_of sections)) (spaces_of sections).resources }
{}
