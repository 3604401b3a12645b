//! The types of a component's functions.

ghost use Rattle.std.specs.Prelude.{◌≡◌, List, MatchResult};
ghost use Rattle.cm_types.specs.Funcs.{func_of};
ghost use Rattle.cm_types.specs.Types.{FuncTy};
ghost use Rattle.cm_types_arena.specs.Placed.{placed_func};
ghost use Rattle.cm_validate_entries.specs.Entries.{func_def};
ghost use Rattle.cm_validate_model.specs.Definitions.{func_type_of};
ghost use Rattle.cm_validate_model.specs.Spaces.{Spaces};
ghost use Rattle.cm_validate_spaces.specs.IndexSpaces.{IsAt};
ghost use Rattle.huxarte_c_components.specs.Funcs.{HasType, IsNoFunc, told_of};

use crate::fault::ComponentFault;
use cm_types::Func;
use cm_types_arena::Placed;
use cm_validate_entries::FuncEntry;
use cm_validate_spaces::IndexSpaces;

/// Why a function has no type to look at.
#[derive(Clone, Copy)]
pub(crate) enum FuncFault {
    /// No function has the index.
    NoFunc,
    /// Its type is not there: this comes for no valid component.
    Memory,
}

impl FuncFault {
    /// The fault under which C knows it.
    pub(crate) fn told(self) -> ComponentFault
        ensures { result ≡ told_of self }
    {
        match self {
            FuncFault::NoFunc => ComponentFault::NoFunc,
            FuncFault::Memory => ComponentFault::Memory,
        }
    }
}

/// Where the type of a function stands.
fn place_of(func: FuncEntry<'_>) -> Placed
    ensures { (funcs : List FuncTy)
        → func_type_of (func_def funcs func.entry) ≡ placed_func funcs result }
{
    match func {
        FuncEntry::Lifted { ty, .. } => ty,
        FuncEntry::Imported { ty, .. } => ty,
    }
}

/// The type of the function of an index, from 0.
///
/// `NoFunc` comes where there is none. That the type of one that is there stands in the arena is
/// looked at once more, and would be `Memory`.
pub(crate) fn func_type<'a>(spaces: &'a IndexSpaces<'_>, index: u32) -> Result<&'a Func, FuncFault>
    ensures { (s : Spaces) → IsAt spaces.now s
        → MatchResult result (λ f. HasType s index (func_of f.now)) (IsNoFunc s index) }
{
    let Some(func) = spaces.func(index) else {
        return Err(FuncFault::NoFunc);
    };
    let ty = place_of(func);
    let types = spaces.arena();
    if ty.place >= types.func_count() {
        return Err(FuncFault::Memory);
    }
    Ok(types.func(ty.place))
}
