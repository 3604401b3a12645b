//! Whether the names in interfaces lead to types.

ghost use Rattle.std.specs.Prelude.{◌≡◌, IfOk, map};
ghost use Rattle.std.specs.List.{AllByRecursion, list_all};
ghost use Rattle.cm_names.specs.Listed.{listed};
ghost use Rattle.cm_wit_reading.specs.Views.{interface_tree};
ghost use Rattle.cm_wit_signature.specs.MemberViews.{member_view};
ghost use Rattle.cm_wit_signature.specs.Members as spec;
ghost use Rattle.cm_wit_signature.specs.Tests as test;

use crate::members::{Member, interface_members};
use crate::texts::{Names, func_led, is_led, is_resource_led, resource_func_led};
use cm_types_arena::Front;
use cm_wit_reading::Interface;
use std::alloc::{AllocError, Global};

/// Whether the name of a front's resource leads to a resource; false where the front is of none.
fn front_led(names: Names<'_, '_>, front: &Front) -> bool
    ensures { result ≡ test.front_led (listed names.entry.keys.now) names.entry.marks.now
        names.entry.list front.now }
{
    match front {
        Front::Method(resource) | Front::Static(resource) | Front::Constructor(resource) => {
            is_resource_led(names, resource.as_str())
        }
        Front::Plain | Front::Interface(_) => false,
    }
}

/// Whether the name of each front's resource leads to a resource. Refused only where there is no
/// memory.
fn fronts_led(
    alloc: Global,
    names: Names<'_, '_>,
    fronts: &[Front],
) -> Result<Vec<bool>, AllocError>
    ensures { IfOk result (λ v. v.items ≡ map (test.front_led (listed names.entry.keys.now)
        names.entry.marks.now names.entry.list) fronts.now) }
{
    let mut out = Vec::new(alloc);
    for front in fronts {
        out.push(front_led(names, front))?;
    }
    Ok(out)
}

/// Whether each name in a member leads to a type, and that of a borrow or of a resource to a
/// resource. Whether that of a resource does is looked up in `resources`, by the front's number.
fn member_led(names: Names<'_, '_>, resources: &[bool], member: &Member<'_>) -> bool
    requires numbered { test.HasResourceNumber (listed names.keys.now) names.marks.now names.list
        resources.now member.now }
    ensures { result ≡ test.member_led (listed names.entry.keys.now) names.entry.marks.now
        names.entry.list (member_view member.now) }
{
    match *member {
        Member::Used(name) => is_led(names, name.as_str()),
        Member::Declared(name) => is_led(names, name.as_str()),
        Member::OfResource { func, front, .. } => {
            resources.get(front).copied().unwrap_or(false) && resource_func_led(names, func)
        }
        Member::Function(_, func) => func_led(names, func),
    }
}

/// Whether this is so of each of these members.
#[tactic(auto, using(crate::proofs::RestLaws::rest_laws))]
fn members_led(names: Names<'_, '_>, resources: &[bool], members: &[Member<'_>]) -> bool
    requires numbered { AllByRecursion (test.HasResourceNumber (listed names.keys.now)
        names.marks.now names.list resources.now) members.now }
    ensures { result ≡ list_all (test.member_led (listed names.entry.keys.now)
        names.entry.marks.now names.entry.list) (map member_view members.now) }
{
    for member in members {
        if !member_led(names, resources, member) {
            return false;
        }
    }
    true
}

/// Whether each name in an interface leads to a type, and that of a borrow or of a resource to a
/// resource. Refused only where there is no memory.
pub fn interface_led(
    alloc: Global,
    names: Names<'_, '_>,
    interface: &Interface,
) -> Result<bool, AllocError>
    ensures { IfOk result (λ b. b ≡ list_all (test.member_led (listed names.entry.keys.now)
        names.entry.marks.now names.entry.list) (spec.members (interface_tree interface.now))) }
{
    let members = interface_members(alloc, interface)?;
    let resources = fronts_led(alloc, names, &members.fronts)?;
    Ok(members_led(names, &resources, &members.list))
}
