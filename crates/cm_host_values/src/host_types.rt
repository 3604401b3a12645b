//! The types of the values that go one way in a call, as a host sees them.

ghost use Rattle.std.specs.Prelude.{◌≡◌, ◌≤◌, ◌↔◌, IfOk, IsTrue, false, true};
ghost use Rattle.cm_types.specs.Funcs.{func_of};
ghost use Rattle.cm_types.specs.Holds.{fields_hold, is_handle};
ghost use Rattle.cm_types.specs.Limits.{nodes_of_fields};
ghost use Rattle.cm_types.specs.declared.limits.TheConstants.{MAX_NODES};
ghost use Rattle.cm_types.specs.Spellable.{are_spellable};
ghost use Rattle.cm_types.specs.Types.{fields, tuple_type};
ghost use Rattle.cm_types.specs.Values.{HasType, parts};
ghost use Rattle.cm_types.specs.ValueTrees.{values_of};
ghost use Rattle.cm_layout.specs.Layouts.{layout_of};
ghost use Rattle.cm_layout.specs.Shapes.{layout_of_fields_at};
ghost use Rattle.cm_abi_model.specs.Receives.{call_kinds};
ghost use Rattle.cm_abi_model.specs.Ways.{way_of};
ghost use Rattle.cm_host_values.specs.Indexed.{host_types};
ghost use Rattle.cm_host_values.specs.Rows.{result_types, row_of};

use crate::trees::{host_trees, one_tree, row_kinds, row_layout};
use cm_abi_model::Way;
use cm_layout::Layout;
use cm_types::{CoreKind, Func, TypeTree, Value, has_type};
use std::alloc::{AllocError, Global};

/// The types of the values that go one way in a call, as a host sees them: u32 in the place of each
/// handle. With them are the kinds of the core values that pass them.
#[derive(Drop)]
pub struct HostTypes {
    way: Way,
    trees: Vec<TypeTree>,
    kinds: Vec<CoreKind>,
    ghost within: { nodes_of_fields (row_of trees.items) ≤ MAX_NODES },
    ghost spellable: { are_spellable (row_of trees.items) ≡ true },
    ghost free: { fields_hold is_handle (row_of trees.items) ≡ false },
    ghost passed: { kinds.items ≡ call_kinds (way_of way) (row_of trees.items) },
}

/// The core values that pass values of types: one pointer where there are too many.
fn passing_kinds(alloc: Global, way: Way, trees: &[TypeTree]) -> Result<Vec<CoreKind>, AllocError>
    ensures { IfOk result (λ ks. ks.items ≡ call_kinds (way_of way) (row_of trees.now)) }
{
    let flat = row_kinds(alloc, trees)?;
    if flat.len() > way.flat_limit() {
        Ok(vec![in alloc; CoreKind::I32]?)
    } else {
        Ok(flat)
    }
}

impl HostTypes {
    ghost use Rattle.cm_host_values.specs.HostTypes.{types_in, way_in};

    /// These types, whose values go that way.
    fn of_trees(alloc: Global, way: Way, trees: Vec<TypeTree>) -> Result<HostTypes, AllocError>
        requires within { nodes_of_fields (row_of trees.items) ≤ MAX_NODES }
        requires spellable { are_spellable (row_of trees.items) ≡ true }
        requires free { fields_hold is_handle (row_of trees.items) ≡ false }
        ensures types { IfOk result (λ t. types_in t ≡ row_of trees.items) }
        ensures way { IfOk result (λ t. way_in t ≡ way_of way) }
    {
        let kinds = passing_kinds(alloc, way, &trees)?;
        Ok(HostTypes { way, trees, kinds })
    }

    /// The types of the parameters of a function (CanonicalABI.md, "Flattening"). `AllocError`
    /// comes where there is no memory for them.
    #[tactic(auto, using(crate::proofs::IndexedLaws::row_laws))]
    pub fn of_params(alloc: Global, func: &Func) -> Result<HostTypes, AllocError>
        ensures types { IfOk result (λ t. types_in t ≡ host_types (func_of func.now).params) }
        ensures way { IfOk result (λ t. way_in t ≡ way_of Way.Params) }
    {
        let trees = host_trees(alloc, &func.params)?;
        HostTypes::of_trees(alloc, Way::Params, trees)
    }

    /// The type of the result of a function, if it has one. `AllocError` comes where there is no
    /// memory for it.
    #[tactic(auto, using(crate::proofs::IndexedLaws::row_laws))]
    pub fn of_result(alloc: Global, func: &Func) -> Result<HostTypes, AllocError>
        ensures types { IfOk result (λ t. types_in t
            ≡ host_types (result_types (func_of func.now))) }
        ensures way { IfOk result (λ t. way_in t ≡ way_of Way.Results) }
    {
        match &func.result {
            Some(tree) => HostTypes::of_trees(alloc, Way::Results, one_tree(alloc, tree)?),
            None => HostTypes::of_trees(alloc, Way::Results, Vec::new(alloc)),
        }
    }

    /// None of the types is one of handles: they are seen by a host as they are.
    #[tactic(auto, using(crate::proofs::IndexedLemmas::row_again))]
    pub fn has_no_handles(&self)
        ensures { types_in self.now ≡ host_types (types_in self.now) }
    {
        let _way = self.way;
    }

    /// Which way the values go.
    pub fn way(&self) -> Way
        ensures { way_of result ≡ way_in self.now }
    {
        self.way
    }

    /// The layout of the tuple of the types. A file can spell each of them. `AllocError` comes
    /// where there is no memory for it.
    pub fn layout(&self, alloc: Global) -> Result<Layout, AllocError>
        ensures layout { IfOk result (λ l. layout_of l
            ≡ layout_of_fields_at (types_in self.now)) }
        ensures spellable { are_spellable (types_in self.now) ≡ true }
    {
        row_layout(alloc, &self.trees)
    }

    /// The kinds of the core values that pass values of these types.
    pub fn kinds(&self) -> &[CoreKind]
        ensures { result.now ≡ call_kinds (way_in self.now) (types_in self.now) }
    {
        self.kinds.as_slice()
    }

    /// Whether there is one value of each type.
    pub fn fit(&self, values: &[Value]) -> bool
        ensures { IsTrue result ↔ HasType (fields tuple_type (types_in self.now))
            (parts (values_of values.now)) }
    {
        are_of(&self.trees, values)
    }
}

/// Whether there is one value of each type.
fn are_of(trees: &[TypeTree], values: &[Value]) -> bool
    ensures { IsTrue result ↔ HasType (fields tuple_type (row_of trees.now))
        (parts (values_of values.now)) }
{
    if values.len() != trees.len() {
        return false;
    }
    for (i, tree) in trees.iter().enumerate() {
        if !has_type(&values[i], tree) {
            return false;
        }
    }
    true
}
