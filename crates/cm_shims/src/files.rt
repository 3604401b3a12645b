//! Files of real tools, read as plain components and judged.

ghost use Rattle.std.specs.Prelude.{◌≡◌, IfErr, IfOk, List, OnOk, map, ℕ};
ghost use Rattle.std.specs.List.{AllByRecursion};
ghost use Rattle.cm_validate_spaces.specs.Checked.{sections_in};
ghost use Rattle.cm_shims.specs.Files.{AreRead, IsFileFault, IsJudged, IsSound};
ghost use Rattle.cm_shims.specs.Files.{component_in, reading_of};

use crate::files_fault::FilesFault;
use crate::fitting::fits;
use cm_shims_plain::{Shimmed, read};
use cm_validate_spaces::{Checked, validate};
use std::alloc::Global;

/// The plain components that files stand for, in order, with what their shims say.
///
/// `Read` has the first file that is not read as a plain component (`crate::read`); `Memory`
/// comes where there is none for the list of components.
pub fn read_files(alloc: Global, files: &[&[u8]]) -> Result<Vec<Shimmed>, FilesFault>
    ensures read { IfOk result (λ cs.
        AreRead (map (λ f. f.now) files.now) (map reading_of cs.items)) }
    ensures fault { IfErr result (IsFileFault (map (λ f. f.now) files.now)) }
{
    let mut components = Vec::new(alloc);
    for (file, bytes) in files.iter().enumerate() {
        match read(alloc, bytes) {
            Ok(component) => components.push(component)?,
            Err(fault) => return Err(FilesFault::Read { file, fault }),
        }
    }
    Ok(components)
}

/// The plain components of files as valid ones, in order, which have the types that the files'
/// shims say. They borrow what was read.
///
/// Each is validated (`validate`), and then what its shims say of it is judged (`crate::fits`),
/// before the next one is. `Component` has the first file whose component is not valid, `Shims` the
/// first one whose component has another type than its shims say, whichever stands first; `Memory`
/// comes where there is none for the list of components.
pub fn check_files<'a>(alloc: Global, files: &'a [Shimmed]) -> Result<Vec<Checked<'a>>, FilesFault>
    ensures held { IfOk result (λ cs.
        map sections_in cs.items ≡ map component_in (map reading_of files.now)) }
    ensures sound { OnOk result (AllByRecursion IsSound (map reading_of files.now)) }
    ensures fault { IfErr result (λ e. (bytes : List (List ℕ))
        → AreRead bytes (map reading_of files.now) → IsFileFault bytes e) }
{
    let mut checked = Vec::new(alloc);
    for (file, shimmed) in files.iter().enumerate() {
        checked.push(check_file(alloc, file, shimmed)?)?;
    }
    Ok(checked)
}

/// The plain component of the file of this number as a valid one, which has the types that the
/// file's shims say.
fn check_file<'a>(
    alloc: Global,
    file: usize,
    shimmed: &'a Shimmed,
) -> Result<Checked<'a>, FilesFault>
    ensures held { IfOk result (λ c. sections_in c ≡ component_in (reading_of shimmed.now)) }
    ensures sound { OnOk result (IsSound (reading_of shimmed.now)) }
    ensures fault { IfErr result (IsJudged file (reading_of shimmed.now)) }
{
    match validate(alloc, &shimmed.component) {
        Ok(checked) => match fits(alloc, &checked, &shimmed.wants) {
            Ok(()) => Ok(checked),
            Err(fault) => Err(FilesFault::Shims { file, fault }),
        },
        Err(fault) => Err(FilesFault::Component { file, fault }),
    }
}
