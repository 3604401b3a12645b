//! The names of the imports, or of the exports, before a place in a component.

use crate::forms::{ExternSort, form_fault};
use crate::names::FoldedName;
use crate::reasons::{broken_unless, lesser};
use cm_names::TextTable;
use cm_validate_model::ValidReason;
use cm_validate_model::laws::least_of_both;
use std::alloc::{AllocError, Global};

/// Names without ASCII case. Each is found at one of 16 places, or else in a tree, so that no
/// choice of names makes it slower than 16 comparisons and the logarithm of their number.
#[derive(Drop)]
pub struct NameSet {
    folded: TextTable,
}

impl NameSet {
    ghost use Rattle.std.specs.Prelude.{◌≡◌, ◌++◌, ◌∷◌, [], OnErr, OnOk};
    ghost use Rattle.cm_validate_model.specs.Reasons.{least};
    ghost use Rattle.cm_validate_core.specs.Forms.{form_broken};
    ghost use Rattle.cm_validate_core.specs.NameSets.{Knows, KnowsMore, KnowsSame, known_broken};
    ghost use Rattle.cm_validate_core.specs.NameSets.{name_of};

    /// No names.
    pub fn new(alloc: Global) -> NameSet
        ensures { Knows result [] }
    {
        NameSet {
            folded: TextTable::new(alloc),
        }
    }

    /// Makes room for so many names more. `AllocError` comes where there is no memory for it. The
    /// names are what they were.
    pub fn reserve(&mut self, more: usize) -> Result<(), AllocError>
        ensures { KnowsSame self.old self.new }
    {
        self.folded.reserve(more)
    }

    /// Why a name of a function, or of an instance, is refused after these: `DuplicateName` where
    /// one of them is the same, ASCII case aside; else `BadAnnotatedName` where a function's is no
    /// label, or an instance's neither a label nor the name of an interface (Explainer.md, "Import
    /// and Export Definitions"). It costs one look-up.
    pub fn fault(&self, name: &FoldedName, sort: ExternSort) -> Option<ValidReason>
        ensures { result ≡ least (form_broken sort (name_of name.now)
            ++ known_broken (name_of name.now) self.now) }
    {
        least_of_both();
        let form = form_fault(&name.name, sort);
        let is_known = self.folded.number(name.folded.as_str()).is_some();
        lesser(form, broken_unless(!is_known, ValidReason::DuplicateName))
    }

    /// Adds a name. Refused only where there is no memory; nothing is changed then.
    pub fn add(&mut self, name: FoldedName) -> Result<(), AllocError>
        ensures added { OnOk result (KnowsMore self.old self.new (name_of name ∷ [])) }
        ensures kept { OnErr result (KnowsMore self.old self.new []) }
    {
        self.folded.add(name.folded)
    }
}
