//! Files, loaded into a set that runs.

ghost use Rattle.std.specs.Prelude.{◌≡◌, IfErr, IfOk, List, OnOk, map, ℕ};
ghost use Rattle.std.specs.List.{AllByRecursion};
ghost use Rattle.cm_validate_model.specs.Valid.{IsValid};
ghost use Rattle.cm_match_serving.specs.Sets.{sections_of};
ghost use Rattle.huxarte.specs.Loading.{AreSpelled, IsLoadFault, IsLoaded};

use crate::fault::LoadFault;
use cm_binary::{Component, decode};
use cm_host::machine::Set;
use cm_stubs_files::matching::link;
use cm_validate::{Checked, validate};
use std::alloc::Global;

/// The components that files spell, in order.
fn components_of(alloc: Global, files: &[&[u8]]) -> Result<Vec<Component>, LoadFault>
    ensures spelled { IfOk result (λ cs. AreSpelled (map (λ f. f.now) files.now) cs.items) }
    ensures fault { IfErr result (λ e. (pages : List ℕ)
        → IsLoadFault (map (λ f. f.now) files.now) pages e) }
{
    let mut components = Vec::new(alloc);
    for (file, bytes) in files.iter().enumerate() {
        match decode(alloc, bytes) {
            Ok(component) => components.push(component)?,
            Err(fault) => return Err(LoadFault::File { file, fault }),
        }
    }
    Ok(components)
}

/// The components as valid ones, in order.
fn checked_of<'a>(alloc: Global, components: &'a [Component]) -> Result<Vec<Checked<'a>>, LoadFault>
    ensures held { IfOk result (λ cs. sections_of cs.items ≡ components.now) }
    ensures valid { OnOk result (AllByRecursion IsValid components.now) }
    ensures fault { IfErr result (λ e. (files : List (List ℕ)) (pages : List ℕ)
        → AreSpelled files components.now → IsLoadFault files pages e) }
{
    let mut checked = Vec::new(alloc);
    for (file, component) in components.iter().enumerate() {
        match validate(alloc, component) {
            Ok(component) => checked.push(component)?,
            Err(fault) => return Err(LoadFault::Component { file, fault }),
        }
    }
    Ok(checked)
}

/// The set of the components that these files spell, which can run: each component has an instance
/// under the number of its file, with so many pages of zeros as memory.
///
/// Files are decoded in order, then their components are validated in order, then they are linked,
/// and then the set is made. The first of these that fails ends it: `File` has the first file that
/// spells no component, `Component` the first one that is not valid, `Link` what can't be linked,
/// `Set` why the machine makes no set of it, such as numbers of pages that do not fit. `Memory`
/// comes where there is none for the lists of components; the faults have reasons of their own for
/// want of memory.
pub fn load(alloc: Global, files: &[&[u8]], pages: &[u32]) -> Result<Set, LoadFault>
    ensures loaded { IfOk result (IsLoaded (map (λ f. f.now) files.now) pages.now) }
    ensures fault { IfErr result (IsLoadFault (map (λ f. f.now) files.now) pages.now) }
{
    let components = components_of(alloc, files)?;
    let checked = checked_of(alloc, &components)?;
    let linked = link(alloc, checked)?;
    Ok(Set::new(alloc, &linked, pages)?)
}
