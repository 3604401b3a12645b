//! Names of imports, exports and items.

use cm_types::ExternNameForm;
use std::alloc::{AllocError, Global};

/// The text of a name.
pub(crate) fn name_text(alloc: Global, name: ExternNameForm<'_>) -> Result<String, AllocError> {
    match name {
        ExternNameForm::Label(label) => String::from_str(alloc, label),
        ExternNameForm::Method { resource, method } => {
            format!(in alloc; "[method]{resource}.{method}")
        }
        ExternNameForm::Static { resource, function } => {
            format!(in alloc; "[static]{resource}.{function}")
        }
        ExternNameForm::Constructor { resource } => format!(in alloc; "[constructor]{resource}"),
        ExternNameForm::Interface {
            namespace,
            package,
            interface,
            version: None,
        } => format!(in alloc; "{namespace}:{package}/{interface}"),
        ExternNameForm::Interface {
            namespace,
            package,
            interface,
            version: Some(version),
        } => format!(in alloc; "{namespace}:{package}/{interface}@{version}"),
    }
}
