//! The names of what shims import.

use cm_types::ExternNameForm;
use std::alloc::{AllocError, Global};

/// Whether a name says of which resource a function is.
pub(crate) fn is_annotated(form: ExternNameForm<'_>) -> bool {
    matches!(
        form,
        ExternNameForm::Method { .. }
            | ExternNameForm::Static { .. }
            | ExternNameForm::Constructor { .. }
    )
}

/// The name under which a shim imports the function of a name.
pub(crate) fn func_name(alloc: Global, form: ExternNameForm<'_>) -> Result<String, AllocError> {
    match form {
        ExternNameForm::Label(label) => Ok(format!(in alloc; "import-func-{label}")?),
        ExternNameForm::Method { resource, method } => {
            Ok(format!(in alloc; "import-method-{resource}-{method}")?)
        }
        ExternNameForm::Static { resource, function } => {
            Ok(format!(in alloc; "import-static-{resource}-{function}")?)
        }
        ExternNameForm::Constructor { resource } => {
            Ok(format!(in alloc; "import-constructor-{resource}")?)
        }
        ExternNameForm::Interface { interface, .. } => {
            Ok(format!(in alloc; "import-interface-{interface}")?)
        }
    }
}

/// The name under which a shim imports the type of a name.
pub(crate) fn type_name(alloc: Global, name: &str) -> Result<String, AllocError> {
    Ok(format!(in alloc; "import-type-{name}")?)
}

/// The name under which a shim imports the type of an index that its instance has no name for.
pub(crate) fn other_name(alloc: Global, index: u32) -> Result<String, AllocError> {
    Ok(format!(in alloc; "import-other-x{index}")?)
}
