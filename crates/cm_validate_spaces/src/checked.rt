//! A valid component.

ghost use Rattle.cm_validate_model.specs.Spaces.{spaces_of};
ghost use Rattle.cm_validate_model.specs.Valid.{IsValid};
ghost use Rattle.cm_validate_spaces.specs.ComponentEntries.{AreEntriesOf};

use crate::ComponentEntries;
use cm_binary_model::Component;

/// A component that is valid, with what each index of it stands for (Explainer.md, "Index Spaces").
/// It borrows the component: names and options are not copied. Types are places of one arena.
#[derive(Drop)]
pub struct Checked<'a> {
    pub(crate) component: &'a Component,
    pub(crate) entries: ComponentEntries<'a>,
    ghost valid: { IsValid component.now },
    ghost indexed: { ∥ AreEntriesOf entries (spaces_of component.now) ∥₁ },
}
