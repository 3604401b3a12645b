//! Packages.

ghost use Rattle.std.specs.Prelude.{◌≡◌};
ghost use Rattle.cm_wit_reading.specs.Views.{file_tree};
ghost use Rattle.cm_wit_package.specs.Texts.{IsWritten};

use cm_wit_reading::WitFile;

/// The interfaces and worlds of a package, as some text writes them, whose names violate no rule.
/// It is made by `parse` alone.
#[derive(Drop)]
pub struct Package {
    pub(crate) file: WitFile,
    ghost written: { ∥ IsWritten (file_tree file) ∥₁ },
}

impl Package {
    /// What the package's text spells.
    pub fn file(&self) -> &WitFile
        ensures { file_tree result.now ≡ file_tree self.now.file }
    {
        &self.file
    }
}
