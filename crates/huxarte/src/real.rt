//! Files of real tools, loaded into a set that runs.

ghost use Rattle.std.specs.Prelude.{IfErr, IfOk, map};
ghost use Rattle.huxarte.specs.Real.{IsRealFault, IsRealLoaded};

use crate::real_fault::RealFault;
use cm_host::machine::Set;
use cm_stubs_files::matching::link;
use cm_stubs_files::shims::{check_files, read_files};
use std::alloc::Global;

/// The set of the components for which these files of real tools stand, which may have shims
/// (`cm_shims`): as `load` makes one of files without shims.
///
/// Files are read as plain components in order; then these are validated in order, and each is to
/// have the types that its file's shims say; then they are linked, and then the set is made. The
/// first of these that fails ends it: `File` has the first file that is at fault, by its number,
/// `Link` what can't be linked, `Set` why the machine makes no set of it, such as numbers of pages
/// that do not fit. The faults have reasons of their own for want of memory.
pub fn load_real(alloc: Global, files: &[&[u8]], pages: &[u32]) -> Result<Set, RealFault>
    ensures loaded { IfOk result (IsRealLoaded (map (λ f. f.now) files.now) pages.now) }
    ensures fault { IfErr result (IsRealFault (map (λ f. f.now) files.now) pages.now) }
{
    let components = read_files(alloc, files)?;
    let checked = check_files(alloc, &components)?;
    let linked = link(alloc, checked)?;
    Ok(Set::new(alloc, &linked, pages)?)
}
