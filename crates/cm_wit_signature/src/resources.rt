//! The resources that the fronts of names are of, by one look-up each.

ghost use Rattle.std.specs.Prelude.{◌≡◌, List, Option, None, Some, IfOk, IfErr, map, slice_get};
ghost use Rattle.std.specs.Option.{option_and_then};
ghost use Rattle.cm_types.specs.Types.{Ty};
ghost use Rattle.cm_types.specs.declared.resource.ResourceId.{ResourceId};
ghost use Rattle.cm_wit_meanings.specs.Places.{scope_in};
ghost use Rattle.cm_wit_meanings.specs.Scopes.{as_resource};
ghost use Rattle.cm_wit_meanings.specs.declared.fault.MeaningFault.TheVariants as fault;
ghost use Rattle.cm_wit_signature.specs.Fronts.{front_resource};

use cm_types::{Label, ResourceId};
use cm_types_arena::Front;
use cm_wit_meanings::{Meaning, MeaningFault, Scope};
use std::alloc::{AllocError, Global};

/// The resource that a name stands for, if it stands for one.
fn resource_named(scope: &Scope<'_, '_>, name: &Label) -> Option<ResourceId>
    ensures { (types : List Ty) → result
        ≡ option_and_then as_resource (scope_in types scope.now name.now) }
{
    match scope.find(name.as_str()) {
        Some(Meaning::Resource(resource)) => Some(resource),
        Some(Meaning::Value(_)) => None,
        None => None,
    }
}

/// The resource of the functions whose names have a front, if its name stands for one.
fn front_resource(scope: &Scope<'_, '_>, front: &Front) -> Option<ResourceId>
    ensures { (types : List Ty) → result ≡ front_resource (scope_in types scope.now) front.now }
{
    match front {
        Front::Plain => None,
        Front::Method(resource) => resource_named(scope, resource),
        Front::Static(resource) => resource_named(scope, resource),
        Front::Constructor(resource) => resource_named(scope, resource),
        Front::Interface(_) => None,
    }
}

/// The resources of fronts, in order: so the name of a resource is not looked up for each of its
/// functions. Refused only where there is no memory.
pub fn front_resources(
    alloc: Global,
    scope: &Scope<'_, '_>,
    fronts: &[Front],
) -> Result<Vec<Option<ResourceId>>, AllocError>
    ensures { IfOk result (λ v. (types : List Ty)
        → v.items ≡ map (front_resource (scope_in types scope.now)) fronts.now) }
{
    let mut resources = Vec::new(alloc);
    for front in fronts {
        resources.push(front_resource(scope, front))?;
    }
    Ok(resources)
}

/// The resource at the number of a front.
pub fn resource_at(
    resources: &[Option<ResourceId>],
    front: usize,
) -> Result<ResourceId, MeaningFault>
    ensures resource { IfOk result (λ r. slice_get resources.now front ≡ Some (Some r)) }
    ensures fault { IfErr result (λ f. f ≡ fault.NoSuchType) }
    ensures nothing { IfErr result (λ f. (o : Option ResourceId)
        → slice_get resources.now front ≡ Some o → o ≡ None) }
{
    match resources.get(front) {
        Some(Some(resource)) => Ok(*resource),
        Some(None) => Err(MeaningFault::NoSuchType),
        None => Err(MeaningFault::NoSuchType),
    }
}
