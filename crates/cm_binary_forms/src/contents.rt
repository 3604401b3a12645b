//! What was read of the contents of a section.

ghost use Rattle.std.specs.Prelude.{◌≡◌, IfOk};
ghost use Rattle.cm_binary_model.specs.Trees.{section_tree};
ghost use Rattle.cm_binary_forms.specs.Contents.{contents_tree};

use cm_binary_model::{CustomSection, Section};
use std::alloc::{AllocError, Global};

/// What was read of the contents of a section. The bytes of a custom section and of a core module
/// stand where they were read, so that nothing is copied of a section that is cut.
#[derive(Drop)]
pub enum Contents<'a> {
    Custom { name: String, bytes: &'a [u8] },
    CoreModule(&'a [u8]),
    Items(Section),
}

impl<'a> Contents<'a> {
    /// The section with these contents.
    pub fn into_section(self, alloc: Global) -> Result<Section, AllocError>
        ensures { IfOk result (λ s. section_tree s ≡ contents_tree self.entry) }
    {
        match self {
            Contents::Custom { name, bytes } => Ok(Section::Custom(CustomSection {
                name,
                bytes: Vec::from_slice(alloc, bytes)?,
            })),
            Contents::CoreModule(bytes) => Ok(Section::CoreModule(Vec::from_slice(alloc, bytes)?)),
            Contents::Items(section) => Ok(section),
        }
    }
}
