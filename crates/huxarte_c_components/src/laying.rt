//! How the types of a component's functions lie.

ghost use Rattle.std.specs.Prelude.{◌≡◌, IfErr, IfOk, Some};
ghost use Rattle.cm_types.specs.Funcs.{func_of};
ghost use Rattle.cm_validate_spaces.specs.Checked.{spaces_in};
ghost use Rattle.huxarte_c_components.specs.Laying.{IsLayoutVerdict, IsNoNode, IsNoNodeIn};
ghost use Rattle.huxarte_c_components.specs.Laying.{IsNoNodeOf, IsNodeIn, IsNodeOf};
ghost use Rattle.huxarte_c_calls.specs.Laying.{node_by};

use crate::fault::ComponentFault;
use crate::func_type::func_type;
use crate::sound::{check_one, read_one};
use cm_types::Func;
use cm_validate_spaces::Checked;
use huxarte_c_calls::{HuxNode, HuxVerdict, node_by};
use std::alloc::Global;

/// The numbers of the type that a path leads to from a function.
fn node_from(alloc: Global, func: &Func, way: u32, path: &[u32]) -> Result<HuxNode, ComponentFault>
    ensures found { IfOk result (λ n. node_by (func_of func.now) way path.now ≡ Some n) }
    ensures refused { IfErr result (IsNoNode (func_of func.now) way path.now) }
{
    match node_by(alloc, func, way, path)? {
        Some(node) => Ok(node),
        None => Err(ComponentFault::NoPart),
    }
}

/// The numbers of the type that a path leads to from the function of an index of a component.
fn node_in(
    alloc: Global,
    component: &Checked<'_>,
    func: u32,
    way: u32,
    path: &[u32],
) -> Result<HuxNode, ComponentFault>
    ensures found { IfOk result (IsNodeIn (spaces_in component.now) func way path.now) }
    ensures refused { IfErr result (IsNoNodeIn (spaces_in component.now) func way path.now) }
{
    let spaces = component.spaces(alloc)?;
    match func_type(&spaces, func) {
        Ok(func) => node_from(alloc, func, way, path),
        Err(fault) => Err(fault.told()),
    }
}

/// The numbers of the type that a path leads to from a function of the component of a file.
fn node_of(
    alloc: Global,
    bytes: &[u8],
    func: u32,
    way: u32,
    path: &[u32],
) -> Result<HuxNode, ComponentFault>
    ensures found { IfOk result (IsNodeOf bytes.now func way path.now) }
    ensures refused { IfErr result (IsNoNodeOf bytes.now func way path.now) }
{
    let files = read_one(alloc, bytes)?;
    match check_one(alloc, &files) {
        Ok(component) => node_in(alloc, &component, func, way, path),
        Err(fault) => Err(ComponentFault::Files(fault)),
    }
}

/// Tells how a type lies in memory, and in core values (CanonicalABI.md, "Alignment", "Element
/// Size" and "Flattening").
///
/// `component` are the bytes of a component file, `func` the index of a function of it, from 0, and
/// `way` 0 for the tuple of its parameters or 1 for its result. `path` leads from there to the
/// type: a number of a part, from 0, one of a part of that, and so on; empty it leads to the whole.
///
/// Where the answer is `Fine`, `node` has the type; else `node` stays. `NoPart` comes where the
/// function has no result, and where the path leads to no type.
pub fn lay(
    alloc: Global,
    component: &[u8],
    func: u32,
    way: u32,
    path: &[u32],
    node: &mut HuxNode,
) -> HuxVerdict
    ensures { IsLayoutVerdict component.now func way path.now result node.old node.new }
{
    match node_of(alloc, component, func, way, path) {
        Ok(found) => {
            *node = found;
            HuxVerdict::fine()
        }
        Err(fault) => fault.verdict(),
    }
}
