//! What open bundles import and export.

use crate::fault::Fault;
use crate::fronts::{caller_of, signature_of_front, valid_stub};
use crate::gathered::gathered;
use crate::loading::Loaded;
use crate::taking::Given;
use cm_bundle::ImportGroup;
use cm_names::TextTable;
use cm_stubs::{Component, provider};
use cm_tool_commands::{Checked, signature};
use cm_tool_help_texts::Escaped;
use cm_types::ExternName;
use cm_types_arena::{Extern, ExternDesc, Externs, Signature};
use std::alloc::{AllocError, Global};

/// What the open bundle of this name imports, and what it exports: what this part does, whose
/// imports are given this. The types of both stand in one arena: that of a component that has the
/// imports of the bundle and of the part, where one is given the other under one name, and what
/// the part exports under names of their own. `Refused` comes where an import of the bundle has
/// such a name, and where two of them are versions of one interface that are compatible: no bundle
/// that `hux` writes has such imports, but for a file that imports such a name.
pub(crate) fn open_signature(
    alloc: Global,
    name: &str,
    front: &[ImportGroup<'_>],
    part: &Loaded<'_>,
    given: &[Given],
) -> Result<Signature, Fault> {
    let exported = signature(alloc, part.check(alloc)?)?;
    let exports = externs_in(exported.exports());
    let asked = asked_of(alloc, part.check(alloc)?, given, exports)?;
    whole_signature(alloc, name, front, asked, exports)
}

/// What the open bundle of this name imports, and these exports: what is asked of its part.
fn whole_signature(
    alloc: Global,
    name: &str,
    front: &[ImportGroup<'_>],
    asked: Signature,
    exports: &[Extern],
) -> Result<Signature, Fault> {
    let imported = signature_of_front(alloc, name, front)?;
    let names = names_of(alloc, externs_in(imported.imports()))?;
    if has_own_name(&names) {
        return Err(other_imports(alloc, name));
    }
    let stub = caller_of_both(alloc, &[imported, asked])?;
    let whole = split(alloc, valid_stub(alloc, &stub)?, &names, exports)?;
    if externs_in(whole.imports()).len() == names.len() {
        Ok(whole)
    } else {
        Err(other_imports(alloc, name))
    }
}

/// A component that imports all that these signatures import.
fn caller_of_both(alloc: Global, signatures: &[Signature]) -> Result<Component, Fault> {
    caller_of(alloc, &provider(alloc, signatures)?)
}

/// The fault of an open bundle with imports that are not told apart here.
fn other_imports(alloc: Global, name: &str) -> Fault {
    let name = Escaped(name);
    match format!(in alloc; "{name}: it is an open bundle with imports that hux does not write") {
        Ok(text) => Fault::Refused(text),
        Err(_) => Fault::Memory,
    }
}

/// The imports or exports of a component.
fn externs_in(externs: &Externs) -> &[Extern] {
    match externs {
        Externs::OfComponent(listed) => listed.externs(),
        Externs::OfWorld(_) => &[],
    }
}

fn names_of(alloc: Global, externs: &[Extern]) -> Result<Vec<ExternName>, AllocError> {
    let mut names = Vec::with_capacity(alloc, externs.len())?;
    for each in externs {
        names.push(each.name.clone()?)?;
    }
    Ok(names)
}

/// What imports all that a part does, which is given this, and all that it exports.
fn asked_of(
    alloc: Global,
    part: Checked<'_>,
    given: &[Given],
    exports: &[Extern],
) -> Result<Signature, Fault> {
    let externs = part.into_externs();
    let mut asked = externs.imports;
    for (number, import) in asked.iter_mut().enumerate() {
        import.name = name_given(alloc, given.get(number), number)?;
    }
    for (number, export) in exports.iter().enumerate() {
        asked.push(Extern {
            name: name_of_export(alloc, number)?,
            desc: shared(&export.desc)?,
        })?;
    }
    gathered(alloc, externs.types, asked, Vec::new(alloc))
}

/// The name of an import of a part as it is asked: that of the bundle's import that it is given, or
/// one of its own.
fn name_given(
    alloc: Global,
    given: Option<&Given>,
    number: usize,
) -> Result<ExternName, AllocError> {
    match given {
        Some(Given::Open(name)) => name.clone(),
        Some(Given::Part { .. }) | None => {
            let name = format!(in alloc; "{OWN}inside-i{number}")?;
            parsed(alloc, name.as_str())
        }
    }
}

/// The name of an export of a part as it is asked.
fn name_of_export(alloc: Global, number: usize) -> Result<ExternName, AllocError> {
    let name = format!(in alloc; "{OWN}exported-e{number}")?;
    parsed(alloc, name.as_str())
}

/// The name that this text is; the text has the form of one.
fn parsed(alloc: Global, text: &str) -> Result<ExternName, AllocError> {
    match ExternName::parse(alloc, text) {
        Ok(name) => Ok(name),
        Err(_) => Err(AllocError),
    }
}

/// What names begin with that stand for no import of the bundle.
const OWN: &str = "the-bundle-has-";

/// Whether an import of the bundle has such a name.
fn has_own_name(names: &[ExternName]) -> bool {
    for name in names {
        if name.as_str().starts_with(OWN) {
            return true;
        }
    }
    false
}

/// The same import or export.
fn shared(desc: &ExternDesc) -> Result<ExternDesc, AllocError> {
    match desc {
        ExternDesc::Func(placed) => Ok(ExternDesc::Func(*placed)),
        ExternDesc::Instance { ty, by } => Ok(ExternDesc::Instance {
            ty: ty.clone()?,
            by: *by,
        }),
    }
}

/// The signature that imports what this component does under these names, and exports what it
/// imports in their stead.
fn split(
    alloc: Global,
    whole: Checked<'_>,
    names: &[ExternName],
    exports: &[Extern],
) -> Result<Signature, Fault> {
    let externs = whole.into_externs();
    let mut listed = Listed::of(alloc, externs.imports)?;
    let mut imported = Vec::with_capacity(alloc, names.len())?;
    for name in names {
        listed.move_to(&mut imported, name, name)?;
    }
    let mut exported = Vec::with_capacity(alloc, exports.len())?;
    for (number, export) in exports.iter().enumerate() {
        listed.move_to(&mut exported, &name_of_export(alloc, number)?, &export.name)?;
    }
    gathered(alloc, externs.types, imported, exported)
}

/// Imports that are found by their names.
#[derive(Drop)]
struct Listed {
    names: TextTable,
    /// What is not taken yet, by the numbers of the names.
    imports: Vec<Option<Extern>>,
}

impl Listed {
    fn of(alloc: Global, imports: Vec<Extern>) -> Result<Listed, AllocError> {
        let mut names = TextTable::new(alloc);
        let mut listed = Vec::with_capacity(alloc, imports.len())?;
        for import in imports {
            names.add(String::from_str(alloc, import.name.as_str())?)?;
            listed.push(Some(import))?;
        }
        Ok(Listed {
            names,
            imports: listed,
        })
    }

    /// Moves the import of a name to a list, under another name.
    fn move_to(
        &mut self,
        list: &mut Vec<Extern>,
        name: &ExternName,
        to: &ExternName,
    ) -> Result<(), AllocError> {
        let Some(number) = self.names.number(name.as_str()) else {
            return Ok(());
        };
        let Some(slot) = self.imports.get_mut(number) else {
            return Ok(());
        };
        if let Some(Extern { desc, .. }) = slot.take() {
            list.push(Extern {
                name: to.clone()?,
                desc,
            })?;
        }
        Ok(())
    }
}
