//! How the types of a function lie.

ghost use Rattle.std.specs.Prelude.{◌≡◌, IfOk, option_map};
ghost use Rattle.cm_types.specs.Funcs.{func_of};
ghost use Rattle.cm_layout.specs.Layouts.{layout_of};
ghost use Rattle.cm_layout.specs.Shapes.{layout_at};
ghost use Rattle.huxarte_c_calls.specs.Laying.{node_by, type_by};

use crate::nodes::{HuxNode, node_at};
use cm_layout::{Layout, layout, layout_of_params};
use cm_types::Func;
use std::alloc::{AllocError, Global};

/// The layout of a function's result, if it has one.
fn layout_of_result(alloc: Global, func: &Func) -> Result<Option<Layout>, AllocError>
    ensures { IfOk result (λ l.
        option_map layout_of l ≡ option_map layout_at (func_of func.now).result) }
{
    match &func.result {
        Some(ty) => Ok(Some(layout(alloc, ty)?)),
        None => Ok(None),
    }
}

/// The layout of the tuple of a function's parameters (way 0), or of its result (way 1), if there
/// is one.
fn layout_by(alloc: Global, func: &Func, way: u32) -> Result<Option<Layout>, AllocError>
    ensures { IfOk result (λ l.
        option_map layout_of l ≡ option_map layout_at (type_by (func_of func.now) way)) }
{
    match way {
        0 => Ok(Some(layout_of_params(alloc, func)?)),
        1 => layout_of_result(alloc, func),
        _ => Ok(None),
    }
}

/// The layout, as numbers, of a type of a function, in memory and in core values (CanonicalABI.md,
/// "Alignment", "Element Size" and "Flattening").
///
/// `way` is 0 for the tuple of its parameters, or 1 for its result. The path leads from there to
/// the type: a number of a part, from 0, one of a part of that, and so on; empty it leads to the
/// whole. `None` comes where the function has no result, where `way` is another number, and where
/// the path leads to no type; `AllocError` where there is no memory.
pub fn node_by(
    alloc: Global,
    func: &Func,
    way: u32,
    path: &[u32],
) -> Result<Option<HuxNode>, AllocError>
    ensures { IfOk result (λ n. n ≡ node_by (func_of func.now) way path.now) }
{
    match layout_by(alloc, func, way)? {
        Some(layout) => Ok(node_at(&layout, path)),
        None => Ok(None),
    }
}
