//! Names without ASCII case.

ghost use Rattle.std.specs.Prelude.{◌≡◌, IfOk};
ghost use Rattle.std.specs.String.{string_bytes};
ghost use Rattle.cm_validate_core.specs.Names.{without_case};

use cm_types::ExternName;
use std::alloc::{AllocError, Global};

/// The name of an import or of an export, and its text without ASCII case, by which it is found
/// among others.
#[derive(Drop)]
pub struct FoldedName {
    pub(crate) name: ExternName,
    pub(crate) folded: String,
    ghost is_folded: { string_bytes folded ≡ without_case name },
}

impl FoldedName {
    ghost use Rattle.cm_validate_core.specs.NameSets.{name_of};

    /// This name, whose text is copied once. `AllocError` comes where there is no memory for the
    /// copy, or where the name is shared too often to be counted.
    pub fn new(alloc: Global, name: &ExternName) -> Result<FoldedName, AllocError>
        ensures { IfOk result (λ f. name_of f ≡ name.now) }
    {
        let mut folded = String::from_str(alloc, name.as_str())?;
        folded.make_ascii_lowercase();
        Ok(FoldedName {
            name: name.clone()?,
            folded,
        })
    }
}
