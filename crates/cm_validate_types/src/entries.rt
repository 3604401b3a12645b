//! What stands under an index of a type.

ghost use Rattle.std.specs.Prelude.{◌≡◌, ℕ, IfOk, List};
ghost use Rattle.cm_types.specs.Types.{FuncTy, Ty};
ghost use Rattle.cm_validate_types.specs.Entries.{def_of, entry_sort, is_entry_there};
ghost use Rattle.cm_validate_types.specs.Settled.{IsEntrySettled};
ghost use Rattle.cm_validate_types.specs.SettledScopes.{IsMovedCounted};

use cm_types_arena::Placed;
use cm_validate_items::InstanceItems;
use cm_validate_model::TypeSort;
use std::alloc::AllocError;
use std::rc::Rc;

/// What an index of a type stands for (Explainer.md, "Index Spaces"), with places in an arena of
/// types. Where an alias of an import's item brought a type, its resources are counted as the
/// import counts them, by a move beside its place. The type of an instance is no item of an
/// instance, so no import moves one.
#[derive(Drop)]
pub enum TypeEntry {
    /// A value type.
    Value(Placed),
    /// The type of a function, among those of functions.
    Func(Placed),
    /// A resource, by its number in the component.
    Resource(u64),
    /// The type of an instance, shared by all who name it.
    Instance(Rc<InstanceItems>),
}

impl TypeEntry {
    /// The sort of the type.
    pub fn sort(&self) -> TypeSort
        ensures { result ≡ entry_sort self.now }
    {
        match self {
            TypeEntry::Value(_) => TypeSort::Value,
            TypeEntry::Func(_) => TypeSort::Func,
            TypeEntry::Resource(_) => TypeSort::Resource,
            TypeEntry::Instance(_) => TypeSort::Instance,
        }
    }

    /// This entry again. `AllocError` comes where it is shared too often to be counted.
    pub fn share(&self) -> Result<TypeEntry, AllocError>
        ensures same { IfOk result (λ e. (types : List Ty) (funcs : List FuncTy)
            → def_of types funcs e ≡ def_of types funcs self.now) }
        ensures there { IfOk result (λ e. (types funcs : ℕ)
            → is_entry_there types funcs e ≡ is_entry_there types funcs self.now) }
        ensures settled { IfOk result (λ e. (types : List Ty) (funcs : List FuncTy)
            → IsEntrySettled types funcs self.now → IsEntrySettled types funcs e) }
        ensures moved { IfOk result (λ e. (types : List Ty) (funcs : List FuncTy) (n : ℕ)
            → IsMovedCounted types funcs n self.now → IsMovedCounted types funcs n e) }
    {
        Ok(match self {
            TypeEntry::Value(placed) => TypeEntry::Value(*placed),
            TypeEntry::Func(placed) => TypeEntry::Func(*placed),
            TypeEntry::Resource(number) => TypeEntry::Resource(*number),
            TypeEntry::Instance(instance) => TypeEntry::Instance(instance.clone()?),
        })
    }
}
