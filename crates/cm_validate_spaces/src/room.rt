//! Room for the items of a section.

ghost use Rattle.std.specs.Prelude.{◌≤◌, length};
ghost use Rattle.cm_validate_model.specs.Spaces.{Spaces};
ghost use Rattle.cm_validate_spaces.specs.IndexSpaces.{IsAt};

use crate::IndexSpaces;
use cm_binary_model::{Export, ExportSort, ExternDesc, Import, Section};
use std::alloc::AllocError;

/// How many of these imports are functions.
fn func_imports(imports: &[Import]) -> usize
    ensures { result ≤ length imports.now }
{
    let mut count = 0;
    for import in imports {
        match import.desc {
            ExternDesc::Func(_) => count += 1,
            ExternDesc::Instance(_) => {}
        }
    }
    count
}

/// How many of these exports are functions.
fn func_exports(exports: &[Export]) -> usize
    ensures { result ≤ length exports.now }
{
    let mut count = 0;
    for export in exports {
        match export.sort {
            ExportSort::Func => count += 1,
            ExportSort::Instance => {}
        }
    }
    count
}

/// Makes room for the imports and exports of a section, so that they are not moved while they
/// become more. `AllocError` comes where there is no memory for it. The spaces stay as they are.
pub(crate) fn make_room(spaces: &mut IndexSpaces<'_>, section: &Section) -> Result<(), AllocError>
    ensures { (s : Spaces) → IsAt spaces.old s → IsAt spaces.new s }
{
    match section {
        Section::Imports(items) => {
            spaces
                .component
                .reserve_imports(items.len(), func_imports(items))
        }
        Section::Exports(items) => {
            spaces
                .component
                .reserve_exports(items.len(), func_exports(items))
        }
        _ => Ok(()),
    }
}
