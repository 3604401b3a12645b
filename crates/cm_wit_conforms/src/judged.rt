//! What is judged of all that is compared.

ghost use Rattle.std.specs.Prelude.{◌≡◌, ◌++◌, ◌∷◌, [], List, OnOk};
ghost use Rattle.cm_types_arena.specs.declared.types.Types.{Types};
ghost use Rattle.cm_wit_conforms.specs.Comparisons.{Entry};
ghost use Rattle.cm_wit_conforms.specs.Views.{comparison_of, entry_of};
ghost use Rattle.cm_wit_conforms.specs.Walks.{is_found};

use crate::comparisons::{Comparison, PlacedComparison};
use std::alloc::{AllocError, Global};

/// The comparisons in order up to the first that finds nothing, and whether there is none such.
#[derive(Drop)]
pub(crate) struct Judged {
    pub(crate) entries: Vec<PlacedComparison>,
    pub(crate) found: bool,
}

ghost use Rattle.cm_wit_conforms.specs.Walks.{IsJudged};

/// Whether the other side has something of that name.
fn is_found(what: Comparison) -> bool
    ensures { (h w : Types) → result ≡ is_found (comparison_of h w what) }
{
    match what {
        Comparison::Nothing => false,
        Comparison::Sorts => true,
        Comparison::Funcs(_, _) => true,
        Comparison::Types(_, _) => true,
        Comparison::Resources(_, _) => true,
    }
}

impl Judged {
    /// No comparison yet.
    pub(crate) fn new(alloc: Global) -> Judged
        ensures { (h w : Types) → IsJudged h w [] result }
    {
        Judged {
            entries: Vec::new(alloc),
            found: true,
        }
    }

    /// Adds a comparison, unless an earlier one finds nothing.
    pub(crate) fn add(&mut self, each: PlacedComparison) -> Result<(), AllocError>
        ensures { OnOk result ((h w : Types) (es : List Entry) → IsJudged h w es self.old
            → IsJudged h w (es ++ entry_of h w each ∷ []) self.new) }
    {
        if self.found {
            self.entries.push(each)?;
            self.found = is_found(each.what);
        }
        Ok(())
    }
}
