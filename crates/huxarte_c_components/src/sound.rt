//! The component of one file.

ghost use Rattle.std.specs.Prelude.{◌≡◌, [], ◌∷◌, IfErr, IfOk, IsOkAnd, List, map, ℕ};
ghost use Rattle.cm_binary_model.specs.Trees.{SectionTree};
ghost use Rattle.cm_validate_spaces.specs.Checked.{sections_in};
ghost use Rattle.cm_shims.specs.Files.{AreRead, IsFileFault, reading_of};
ghost use Rattle.huxarte_c_components.specs.Sound.{StandsFor};

use cm_shims::{FilesFault, Shimmed, check_files, read_files};
use cm_validate_spaces::Checked;
use std::alloc::Global;

/// What the bytes of a file are read as: a list of one.
pub fn read_one(alloc: Global, bytes: &[u8]) -> Result<Vec<Shimmed>, FilesFault>
    ensures read { IfOk result (λ files. AreRead (bytes.now ∷ []) (map reading_of files.items)) }
    ensures refused { IfErr result (IsFileFault (bytes.now ∷ [])) }
{
    read_files(alloc, &[bytes])
}

/// The component of a list of one.
fn only<'a>(components: Vec<Checked<'a>>) -> Result<Checked<'a>, FilesFault>
    ensures { (c : List SectionTree) → map sections_in components.entry.items ≡ c ∷ []
        → IsOkAnd result (λ x. sections_in x ≡ c) }
{
    let mut components = components;
    match components.pop() {
        Some(component) => Ok(component),
        None => Err(FilesFault::Memory),
    }
}

/// The component of a file that was read so, as a valid one, of which all holds that the file's
/// shims say.
pub fn check_one<'a>(alloc: Global, files: &'a [Shimmed]) -> Result<Checked<'a>, FilesFault>
    ensures held { (bytes : List ℕ) → AreRead (bytes ∷ []) (map reading_of files.now)
        → IfOk result (λ c. StandsFor bytes (sections_in c)) }
    ensures refused { (bytes : List ℕ) → AreRead (bytes ∷ []) (map reading_of files.now)
        → IfErr result (IsFileFault (bytes ∷ [])) }
{
    match check_files(alloc, files) {
        Ok(checked) => only(checked),
        Err(fault) => Err(fault),
    }
}
