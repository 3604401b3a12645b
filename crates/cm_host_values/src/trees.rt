//! Types as trees, as a host sees them.

ghost use Rattle.std.specs.Prelude.{◌≡◌, ◌≤◌, [], IfOk};
ghost use Rattle.cm_types.specs.Funcs.{tree_type};
ghost use Rattle.cm_types.specs.Limits.{nodes_of_fields};
ghost use Rattle.cm_types.specs.declared.limits.TheConstants.{MAX_NODES};
ghost use Rattle.cm_types.specs.TypeTrees.{field_of, fields_of, type_of};
ghost use Rattle.cm_types.specs.Types.{field, no_fields};
ghost use Rattle.cm_layout.specs.Flattening.{flat_of_fields};
ghost use Rattle.cm_layout.specs.Layouts.{layout_of};
ghost use Rattle.cm_layout.specs.Shapes.{layout_of_fields_at};
ghost use Rattle.cm_host_values.specs.Indexed.{host_types, indexed};
ghost use Rattle.cm_host_values.specs.Rows.{row_of};

use crate::indexed::indexed_node;
use cm_layout::{FieldsBuilder, Layout, flatten, layout};
use cm_types::{CoreKind, Field, TypeNode, TypeTree};
use std::alloc::{AllocError, Global};

/// A type as a host sees it. It is as large as before and as spellable, so that no fault comes.
pub(crate) fn host_tree(alloc: Global, ty: &TypeNode) -> Result<TypeTree, AllocError>
    ensures { IfOk result (λ t. tree_type t ≡ indexed (type_of ty.now)) }
{
    match TypeTree::new(indexed_node(alloc, ty)?) {
        Ok(tree) => Ok(tree),
        Err(_) => Err(AllocError),
    }
}

/// The type of a field as a host sees it.
fn field_tree(alloc: Global, field: &Field) -> Result<TypeTree, AllocError>
    ensures { IfOk result (λ t. tree_type t ≡ indexed (field_of field.now).1) }
{
    host_tree(alloc, &field.ty)
}

/// The types of fields as a host sees them.
#[tactic(auto, using(crate::proofs::IndexedLemmas::rows_by))]
pub(crate) fn host_trees(alloc: Global, row: &[Field]) -> Result<Vec<TypeTree>, AllocError>
    ensures { IfOk result (λ ts. row_of ts.items ≡ host_types (fields_of row.now)) }
{
    let mut trees = Vec::with_capacity(alloc, row.len())?;
    for field in row {
        trees.push(field_tree(alloc, field)?)?;
    }
    Ok(trees)
}

/// The layout of the tuple of types.
pub(crate) fn row_layout(alloc: Global, trees: &[TypeTree]) -> Result<Layout, AllocError>
    requires within { nodes_of_fields (row_of trees.now) ≤ MAX_NODES }
    ensures { IfOk result (λ l. layout_of l ≡ layout_of_fields_at (row_of trees.now)) }
{
    let mut builder = FieldsBuilder::with_capacity(alloc, trees.len())?;
    for tree in trees {
        builder.push(layout(alloc, tree)?)?;
    }
    builder.finish(alloc)
}

/// The core values that values of types are, one type after another.
pub(crate) fn row_kinds(alloc: Global, trees: &[TypeTree]) -> Result<Vec<CoreKind>, AllocError>
    ensures { IfOk result (λ ks. ks.items ≡ flat_of_fields (row_of trees.now)) }
{
    let mut kinds = Vec::new(alloc);
    for tree in trees {
        let flat = flatten(alloc, tree)?;
        kinds.extend_from_slice(&flat)?;
    }
    Ok(kinds)
}

/// One type as a host sees it.
pub(crate) fn one_tree(alloc: Global, tree: &TypeTree) -> Result<Vec<TypeTree>, AllocError>
    ensures { IfOk result (λ ts. row_of ts.items
        ≡ host_types (field [] (tree_type tree.now) no_fields)) }
{
    let tree = host_tree(alloc, &tree.root)?;
    Ok(vec![in alloc; tree]?)
}
