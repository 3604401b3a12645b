//! Stubs that are judged once they are written.

ghost use Rattle.std.specs.Prelude.{◌≡◌, ◌-◌, IfOk, OnOk, length};
ghost use Rattle.std.specs.List.{AllByRecursion};
ghost use Rattle.cm_validate_model.specs.Valid.{IsValid};
ghost use Rattle.cm_stubs.specs.Stubs.{IsCaller, IsProvider, LinksOver, LinksUnder, LinksWith};
ghost use Rattle.cm_stubs.specs.Stubs.{export_count};
ghost use Rattle.cm_match.specs.Linked.{set_in};
ghost use Rattle.cm_stubs.specs.Sets.{checked_set, sections_of};
ghost use Rattle.cm_validate.specs.cm_validate_spaces.Checked.{sections_in};

use crate::fault::StubFault;
use crate::used::are_used;
use cm_binary_model::Component;
use cm_match::{Checked, Linked, link};
use cm_validate::validate;
use std::alloc::Global;

/// The components as valid ones, in order.
pub(crate) fn checked_of<'a>(
    alloc: Global,
    components: &'a [Component],
) -> Result<Vec<Checked<'a>>, StubFault>
    ensures held { IfOk result (λ cs. sections_of cs.items ≡ components.now) }
    ensures valid { OnOk result (AllByRecursion IsValid components.now) }
{
    let mut checked = Vec::new(alloc);
    for (at, component) in components.iter().enumerate() {
        match validate(alloc, component) {
            Ok(component) => checked.push(component)?,
            Err(fault) => {
                return Err(StubFault::Component {
                    component: at,
                    fault,
                });
            }
        }
    }
    Ok(checked)
}

/// The stub as a valid component.
fn valid(alloc: Global, stub: &Component) -> Result<Checked<'_>, StubFault>
    ensures held { IfOk result (λ c. sections_in c ≡ stub.now) }
    ensures valid { OnOk result (IsValid stub.now) }
{
    match validate(alloc, stub) {
        Ok(checked) => Ok(checked),
        Err(fault) => Err(StubFault::NotValid(fault)),
    }
}

/// The stub as a valid component that imports nothing.
fn valid_provider(alloc: Global, stub: &Component) -> Result<Checked<'_>, StubFault>
    ensures held { IfOk result (λ c. sections_in c ≡ stub.now) }
    ensures provider { OnOk result (IsProvider stub.now) }
{
    let checked = valid(alloc, stub)?;
    if !checked.imports().is_empty() {
        return Err(StubFault::NotExact);
    }
    Ok(checked)
}

/// The stub as a valid component that exports nothing.
fn valid_caller(alloc: Global, stub: &Component) -> Result<Checked<'_>, StubFault>
    ensures held { IfOk result (λ c. sections_in c ≡ stub.now) }
    ensures caller { OnOk result (IsCaller stub.now) }
{
    let checked = valid(alloc, stub)?;
    if !checked.exports().is_empty() {
        return Err(StubFault::NotExact);
    }
    Ok(checked)
}

/// Sees to it that the stub is valid and imports nothing.
pub(crate) fn is_provider(alloc: Global, stub: &Component) -> Result<(), StubFault>
    ensures { OnOk result (IsProvider stub.now) }
{
    valid_provider(alloc, stub)?;
    Ok(())
}

/// Sees to it that the stub is valid and exports nothing.
pub(crate) fn is_caller(alloc: Global, stub: &Component) -> Result<(), StubFault>
    ensures { OnOk result (IsCaller stub.now) }
{
    valid_caller(alloc, stub)?;
    Ok(())
}

/// How many exports a component of a linked set has.
fn export_count(linked: &Linked<'_>, component: usize) -> usize
    ensures { result ≡ export_count (set_in linked.now).spaces component }
{
    match linked.components().get(component) {
        Some(checked) => checked.exports().len(),
        None => 0,
    }
}

/// Sees to it that the components can be linked, and that each export of this one serves an import.
fn links_with(alloc: Global, components: Vec<Checked<'_>>, provider: usize) -> Result<(), StubFault>
    ensures { OnOk result (LinksWith (checked_set components.entry.items) provider) }
{
    let linked = match link(alloc, components) {
        Ok(linked) => linked,
        Err(fault) => return Err(StubFault::NotLinked(fault)),
    };
    let count = export_count(&linked, provider);
    if are_used(alloc, linked.plan(), provider, count)? {
        Ok(())
    } else {
        Err(StubFault::NotExact)
    }
}

/// Sees to it that the stub is valid, and that the components can be linked behind it.
pub(crate) fn link_under<'a>(
    alloc: Global,
    stub: &'a Component,
    components: Vec<Checked<'a>>,
) -> Result<(), StubFault>
    ensures provider { OnOk result (IsProvider stub.now) }
    ensures links { OnOk result (LinksUnder stub.now (sections_of components.entry.items)) }
{
    let provider = valid_provider(alloc, stub)?;
    let mut behind = components;
    let mut all = vec![in alloc; provider]?;
    all.append(&mut behind)?;
    links_with(alloc, all, 0)
}

/// The place of the last of these components, or 0 where there is none.
#[tactic(auto, using(crate::proofs::CheckedLaws::sections_count))]
fn last_of(components: &Vec<Checked<'_>>) -> usize
    ensures { result ≡ length (sections_of components.now.items) - 1 }
{
    components.len().saturating_sub(1)
}

/// Sees to it that the stub is valid, and that it can be linked behind the components.
pub(crate) fn link_over<'a>(
    alloc: Global,
    components: Vec<Checked<'a>>,
    stub: &'a Component,
) -> Result<(), StubFault>
    ensures caller { OnOk result (IsCaller stub.now) }
    ensures links { OnOk result (LinksOver stub.now (sections_of components.entry.items)) }
{
    let last = last_of(&components);
    let mut all = components;
    all.push(valid_caller(alloc, stub)?)?;
    links_with(alloc, all, last)
}
