//! The core values that core functions take and answer.

ghost use Rattle.std.specs.Prelude.{◌≡◌, [], IfOk};
ghost use Rattle.cm_types_arena.specs.Placed.{placed_func};
ghost use Rattle.cm_types_arena.specs.Places.{funcs_of};
ghost use Rattle.cm_validate_functions.specs.CoreTypes.{core_type_of, drop_type, flat_type};
ghost use Rattle.cm_validate_functions.specs.CoreTypes.{handle_type, post_return_type};
ghost use Rattle.cm_validate_functions.specs.CoreTypes.{realloc_type};

use cm_layout::{Side, flatten_func};
use cm_types::CoreKind;
use cm_types_arena::{Placed, Types};
use cm_validate_canons::laws::passing_stays;
use std::alloc::{AllocError, Global};
use std::fmt;

/// The kinds of the core values that a core function takes, and of those that it answers. It is
/// shown as `(i32, i64) -> i32`, without `->` where it answers nothing.
#[derive(Drop)]
pub struct CoreFuncType {
    pub params: Vec<CoreKind>,
    pub results: Vec<CoreKind>,
}

/// The type of an allocator (CanonicalABI.md, `canonopt.realloc`).
pub(crate) fn realloc_type(alloc: Global) -> Result<CoreFuncType, AllocError>
    ensures { IfOk result (λ t. core_type_of t ≡ realloc_type) }
{
    Ok(CoreFuncType {
        params: vec![in alloc; CoreKind::I32, CoreKind::I32, CoreKind::I32, CoreKind::I32]?,
        results: vec![in alloc; CoreKind::I32]?,
    })
}

/// The type of what makes or reads a handle (CanonicalABI.md, `canon resource.new`).
pub(crate) fn handle_type(alloc: Global) -> Result<CoreFuncType, AllocError>
    ensures { IfOk result (λ t. core_type_of t ≡ handle_type) }
{
    Ok(CoreFuncType {
        params: vec![in alloc; CoreKind::I32]?,
        results: vec![in alloc; CoreKind::I32]?,
    })
}

/// The type of what drops a handle, and of a destructor (CanonicalABI.md, `canon resource.drop`).
pub(crate) fn drop_type(alloc: Global) -> Result<CoreFuncType, AllocError>
    ensures { IfOk result (λ t. core_type_of t ≡ drop_type) }
{
    Ok(CoreFuncType {
        params: vec![in alloc; CoreKind::I32]?,
        results: Vec::new(alloc),
    })
}

/// The type of a core function that takes and answers nothing.
fn no_values(alloc: Global) -> CoreFuncType
    ensures { core_type_of result ≡ record { params = []; results = [] } }
{
    CoreFuncType {
        params: Vec::new(alloc),
        results: Vec::new(alloc),
    }
}

/// The type of the core function that is lifted to the type of a function, or of the one that
/// lowers such a function (CanonicalABI.md, "Flattening").
pub(crate) fn flat_type(
    alloc: Global,
    types: &Types,
    side: Side,
    ty: Placed,
) -> Result<CoreFuncType, AllocError>
    ensures { IfOk result (λ t. core_type_of t
        ≡ flat_type side (placed_func (funcs_of types.now) ty)) }
{
    passing_stays();
    if ty.place >= types.func_count() {
        return Ok(no_values(alloc));
    }
    let flat = flatten_func(alloc, types.func(ty.place), side)?;
    Ok(CoreFuncType {
        params: flat.params,
        results: flat.results,
    })
}

/// The type of the core function that is called once the result of a function was read.
pub(crate) fn post_return_type(
    alloc: Global,
    types: &Types,
    ty: Placed,
) -> Result<CoreFuncType, AllocError>
    ensures { IfOk result (λ t. core_type_of t
        ≡ post_return_type (placed_func (funcs_of types.now) ty)) }
{
    let lifted = flat_type(alloc, types, Side::Lift, ty)?;
    Ok(CoreFuncType {
        params: lifted.results,
        results: Vec::new(alloc),
    })
}

fn write_kinds<W: fmt::Write>(f: &mut fmt::Formatter<W>, kinds: &[CoreKind]) -> fmt::Result {
    let mut comma = "";
    for kind in kinds {
        let name = match kind {
            CoreKind::I32 => "i32",
            CoreKind::I64 => "i64",
        };
        write!(f, "{comma}{name}")?;
        comma = ", ";
    }
    Ok(())
}

impl fmt::Display for CoreFuncType {
    fn fmt<W: fmt::Write>(&self, f: &mut fmt::Formatter<W>) -> fmt::Result {
        f.write_str("(")?;
        write_kinds(f, &self.params)?;
        f.write_str(")")?;
        if self.results.is_empty() {
            return Ok(());
        }
        f.write_str(" -> ")?;
        write_kinds(f, &self.results)
    }
}
