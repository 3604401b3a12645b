//! What a stub is asked to export or to import: one side of a component or a world.

use cm_binary_model::MAX_FILE_BYTES;
use cm_stubs_drafts::DraftFault;
use cm_types::{ExternName, ExternNameForm, NameFault};
use cm_types_arena::{Desc, Extern, ExternDesc, Externs, Items, NamedDesc, Types};
use std::alloc::{AllocError, Global};

/// Imports or exports in order, with the arena of their types.
#[derive(Drop)]
pub struct Asked<'a> {
    pub types: &'a Types,
    pub externs: Vec<NamedDesc<'a>>,
}

impl<'a> Asked<'a> {
    /// These imports or exports of a signature, with the arena of its types.
    pub fn of_externs(
        alloc: Global,
        types: &'a Types,
        listed: &'a Externs,
    ) -> Result<Asked<'a>, AllocError> {
        let mut externs = Vec::new(alloc);
        for place in 0..listed.len() {
            if let Some(each) = listed.at(place) {
                externs.push(each)?;
            }
        }
        Ok(Asked { types, externs })
    }

    /// These imports of a valid component, with the arena of its types.
    pub fn of_imports(
        alloc: Global,
        types: &'a Types,
        imports: &'a [Extern],
    ) -> Result<Asked<'a>, AllocError> {
        let mut externs = Vec::with_capacity(alloc, imports.len())?;
        for import in imports {
            externs.push(NamedDesc {
                name: import.name.form(),
                desc: desc_of(&import.desc),
            })?;
        }
        Ok(Asked { types, externs })
    }
}

/// What an import of a component is.
fn desc_of(desc: &ExternDesc) -> Desc<'_> {
    match desc {
        ExternDesc::Func(placed) => Desc::Func(*placed),
        ExternDesc::Instance { ty, by } => Desc::Instance(Items::OfComponent {
            list: &ty.items,
            by: *by,
        }),
    }
}

/// How many bytes the text of a name has, or more.
pub(crate) fn bytes_of(form: ExternNameForm<'_>) -> usize {
    match form {
        ExternNameForm::Label(label) => label.len(),
        ExternNameForm::Method { resource, method } => {
            resource
                .len()
                .saturating_add(method.len())
                .saturating_add(9)
        }
        ExternNameForm::Static { resource, function } => {
            resource
                .len()
                .saturating_add(function.len())
                .saturating_add(9)
        }
        ExternNameForm::Constructor { resource } => resource.len().saturating_add(13),
        ExternNameForm::Interface {
            namespace,
            package,
            interface,
            version,
        } => namespace
            .len()
            .saturating_add(package.len())
            .saturating_add(interface.len())
            .saturating_add(version.unwrap_or("").len())
            .saturating_add(3),
    }
}

/// The text of a name.
fn text_of(alloc: Global, form: ExternNameForm<'_>) -> Result<String, AllocError> {
    match form {
        ExternNameForm::Label(label) => String::from_str(alloc, label),
        ExternNameForm::Method { resource, method } => {
            Ok(format!(in alloc; "[method]{resource}.{method}")?)
        }
        ExternNameForm::Static { resource, function } => {
            Ok(format!(in alloc; "[static]{resource}.{function}")?)
        }
        ExternNameForm::Constructor { resource } => {
            Ok(format!(in alloc; "[constructor]{resource}")?)
        }
        ExternNameForm::Interface {
            namespace,
            package,
            interface,
            version: None,
        } => Ok(format!(in alloc; "{namespace}:{package}/{interface}")?),
        ExternNameForm::Interface {
            namespace,
            package,
            interface,
            version: Some(version),
        } => Ok(format!(in alloc; "{namespace}:{package}/{interface}@{version}")?),
    }
}

/// The name of this form. Where it is of a signature, what is refused is memory.
pub(crate) fn name_of(alloc: Global, form: ExternNameForm<'_>) -> Result<ExternName, DraftFault> {
    let text = text_of(alloc, form)?;
    match ExternName::parse(alloc, text.as_str()) {
        Ok(name) => Ok(name),
        Err(NameFault::Memory) => Err(DraftFault::Memory),
        Err(_) => Err(DraftFault::TooLong),
    }
}

/// The names of imports or exports, in order. `TooLong` comes where they have more bytes together
/// than a file may have.
pub fn names_of(alloc: Global, externs: &Externs) -> Result<Vec<ExternName>, DraftFault> {
    let mut names = Vec::new(alloc);
    let mut left = MAX_FILE_BYTES;
    for place in 0..externs.len() {
        if let Some(each) = externs.at(place) {
            left = left
                .checked_sub(bytes_of(each.name))
                .ok_or(DraftFault::TooLong)?;
            names.push(name_of(alloc, each.name)?)?;
        }
    }
    Ok(names)
}
