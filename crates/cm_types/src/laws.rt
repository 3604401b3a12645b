//! What holds of every type and of every name, as laws: each function here does nothing, and its
//! contract is the law.

ghost use Rattle.std.specs.Prelude.{◌≡◌, Some};
ghost use Rattle.cm_types.specs.ExternNames.{HasLabels, NameTree, form_of, name_spelling};

use crate::limits::{MAX_DEPTH, MAX_NODES};
use crate::spellable::MAX_FLAGS;

/// A type has at most 10,000 nodes, is at most 64 deep, and has at most 32 labels of flags.
pub fn limits_of_types()
    ensures nodes { MAX_NODES ≡ 10000 }
    ensures depth { MAX_DEPTH ≡ 64 }
    ensures flags { MAX_FLAGS ≡ 32 }
{}

/// A name shows the form that it spells, where the parts of that form are labels (Explainer.md,
/// "Import and Export Definitions"): so two names are the same text only where all their parts are.
pub fn names_show_their_forms()
    ensures { (name : NameTree) → HasLabels name → form_of (name_spelling name) ≡ Some name }
{}
