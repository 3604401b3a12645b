//! Which forms of names imports and exports may have.

ghost use Rattle.std.specs.Prelude.{◌≡◌};
ghost use Rattle.cm_types.specs.ExternNameForms.{form_tree};
ghost use Rattle.cm_validate_model.specs.ItemNames.{is_plain, is_plain_or_interface};
ghost use Rattle.cm_validate_model.specs.Reasons.{least};
ghost use Rattle.cm_validate_core.specs.Forms.{form_broken};

use crate::reasons::broken_unless;
use cm_types::{ExternName, ExternNameForm};
use cm_validate_model::ValidReason;

/// What an import or an export is (Binary.md, "Import and Export Definitions").
#[derive(Clone, Copy)]
pub enum ExternSort {
    Func,
    Instance,
}

/// Whether the name is a label alone (Explainer.md, "Import and Export Definitions").
pub fn is_label(form: ExternNameForm<'_>) -> bool
    ensures { result ≡ is_plain (form_tree form.entry) }
{
    match form {
        ExternNameForm::Label(_) => true,
        _ => false,
    }
}

/// Whether the name is a label, or that of an interface.
fn is_label_or_interface(form: ExternNameForm<'_>) -> bool
    ensures { result ≡ is_plain_or_interface (form_tree form.entry) }
{
    match form {
        ExternNameForm::Label(_) | ExternNameForm::Interface { .. } => true,
        _ => false,
    }
}

/// Why the form of a name is refused: `BadAnnotatedName` where a function's is no label, or an
/// instance's neither a label nor the name of an interface.
pub(crate) fn form_fault(name: &ExternName, sort: ExternSort) -> Option<ValidReason>
    ensures { result ≡ least (form_broken sort name.now) }
{
    let fits = match sort {
        ExternSort::Func => is_label(name.form()),
        ExternSort::Instance => is_label_or_interface(name.form()),
    };
    broken_unless(fits, ValidReason::BadAnnotatedName)
}
