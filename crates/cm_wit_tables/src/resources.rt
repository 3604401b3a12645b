//! Which declarations are of resources.

ghost use Rattle.std.specs.Prelude.{◌≡◌, ◌<◌, ◌↔◌, ℕ, IfOk, length, map, slice_get, vec_len};
ghost use Rattle.cm_wit_graph.specs.Graphs.{IsMarked, IsWithin};
ghost use Rattle.cm_names.specs.Listed.{listed};
ghost use Rattle.cm_wit_tables.specs.Declarations.{keys_of};
ghost use Rattle.cm_wit_tables.specs.Tables.{declares_resource, resource_of};
ghost use Rattle.cm_wit_tables.specs.TypeFaults.{IsResource};
ghost use Rattle.cm_wit_tables.specs.DeclaredViews.{declaration_view};
ghost use Rattle.cm_wit_tables.specs.Leading.{brought_target};
ghost use Rattle.cm_wit_tables.specs.Resources.{brought_edges};

use crate::{Declaration, Declared};
use cm_names::Keys;
use cm_types::ResourceId;
use cm_wit_graph::Graph;
use cm_wit_reading::TypeDef;
use std::alloc::{AllocError, Global};

/// Whether a declaration defines a resource.
fn declares_resource(declaration: &Declaration<'_>) -> bool
    ensures { result ≡ declares_resource (declaration_view declaration.now) }
{
    match declaration.is {
        Declared::Brought(_) => false,
        Declared::Defined(TypeDef::Resource(_)) => true,
        Declared::Defined(_) => false,
    }
}

/// For each declaration whether it defines a resource.
#[tactic(auto, using(crate::proofs::MapLaws::map_laws))]
fn own_marks(alloc: Global, declarations: &[Declaration<'_>]) -> Result<Vec<bool>, AllocError>
    ensures { IfOk result (λ v.
        v.items ≡ map declares_resource (map declaration_view declarations.now)) }
{
    let mut marks = Vec::new(alloc);
    for declaration in declarations {
        marks.push(declares_resource(declaration))?;
    }
    Ok(marks)
}

/// The resource that each declaration would bring if it declared one: resources are numbered from 0
/// in the order of the declarations that define them. Refused only where there is no memory.
pub fn resource_ids(
    alloc: Global,
    declarations: &[Declaration<'_>],
) -> Result<Vec<ResourceId>, AllocError>
    ensures len { IfOk result (λ v. vec_len v ≡ length declarations.now) }
    ensures numbered { IfOk result (λ v. (k : ℕ) → k < length declarations.now
        → slice_get v.items k ≡ Some (resource_of (map declaration_view declarations.now) k)) }
{
    let mut ids = Vec::new(alloc);
    let mut number: usize = 0;
    for declaration in declarations {
        ids.push(ResourceId {
            component: 0,
            number: number as u64,
        })?;
        if declares_resource(declaration) {
            number += 1;
        }
    }
    Ok(ids)
}

/// The place from which a declaration brings its type, if its key leads to one.
fn brought_target(keys: &Keys<'_>, declaration: &Declaration<'_>) -> Option<usize>
    ensures { result ≡ brought_target (listed keys.now) (declaration_view declaration.now).is }
{
    match declaration.is {
        Declared::Brought(Some((list, name))) => keys.find(list, name),
        Declared::Brought(None) => None,
        Declared::Defined(_) => None,
    }
}

/// The edges from what is brought to where it is declared.
#[tactic(auto, using(crate::proofs::EdgeLaws::edge_laws))]
fn brought_edges(
    alloc: Global,
    keys: &Keys<'_>,
    declarations: &[Declaration<'_>],
) -> Result<Vec<(usize, usize)>, AllocError>
    ensures { IfOk result (λ v. v.items
        ≡ brought_edges (listed keys.now) 0 (map declaration_view declarations.now)) }
{
    let mut edges = Vec::new(alloc);
    for (place, declaration) in declarations.iter().enumerate() {
        if let Some(target) = brought_target(keys, declaration) {
            edges.push((place, target))?;
        }
    }
    Ok(edges)
}

/// For each declaration whether it is of a resource: it defines one, or brings one from where it is
/// declared, by way of others or not. It takes time linear in the declarations. Refused only where
/// there is no memory.
pub fn resource_marks(
    alloc: Global,
    keys: &Keys<'_>,
    declarations: &[Declaration<'_>],
) -> Result<Vec<bool>, AllocError>
    requires { listed keys.now ≡ keys_of (map declaration_view declarations.now) }
    ensures len { IfOk result (λ v. vec_len v ≡ length declarations.now) }
    ensures marked { IfOk result (λ v. (k : ℕ) →
        IsMarked v.items k ↔ IsResource (map declaration_view declarations.now) k) }
{
    let edges = brought_edges(alloc, keys, declarations)?;
    let marks = own_marks(alloc, declarations)?;
    Graph::new(alloc, declarations.len(), edges)?.leading_to(alloc, marks)
}
