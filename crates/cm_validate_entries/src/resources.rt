//! Resources: those that the component defines, and what makes, drops and reads handles of one.

ghost use Rattle.std.specs.Prelude.{◌≡◌, ◌∷◌, [], IfErr, IfOk, List, Some, map, slice_get};
ghost use Rattle.cm_types.specs.Types.{FuncTy, Ty};
ghost use Rattle.cm_binary_model.specs.Trees.{resource_drop, resource_new, resource_rep};
ghost use Rattle.cm_validate_model.specs.declared.fault.ValidReason.TheVariants as reason;
ghost use Rattle.cm_validate_model.specs.Reasons.{index_broken, least, unless};
ghost use Rattle.cm_validate_model.specs.Rules.{canon_broken, is_defined};
ghost use Rattle.cm_validate_model.specs.Spaces.{Spaces};
ghost use Rattle.cm_validate_model.specs.TypeRules.{has_sort};
ghost use Rattle.cm_validate_model.specs.declared.sorts.TypeSort.TheVariants as sort;
ghost use Rattle.cm_validate_types.specs.Entries.{entry_sort};
ghost use Rattle.cm_validate_types.specs.declared.entries.TypeEntry.TheVariants as entry;
ghost use Rattle.cm_validate_entries.specs.ComponentSpaces.{AreTypesOf};
ghost use Rattle.cm_validate_entries.specs.Entries.{entry_resource};
ghost use Rattle.cm_validate_items.specs.Ranges.{resource_def};

use crate::spaces::ComponentSpaces;
use cm_validate_items::Resource;
use cm_validate_model::ValidReason;
use cm_validate_types::TypeEntry;
use std::alloc::AllocError;

/// The number of the resource that it is, if it is one.
fn as_resource(ty: &TypeEntry) -> Option<u64>
    ensures { result ≡ entry_resource ty.now }
{
    match ty {
        TypeEntry::Resource(number) => Some(*number),
        TypeEntry::Value(_) | TypeEntry::Func(_) | TypeEntry::Instance(_) => None,
    }
}

/// Why a resource that the component has to define is refused.
fn brought_fault(resource: Resource) -> Option<ValidReason>
    ensures { result
        ≡ least (unless (is_defined (resource_def resource)) reason.NotOwnResource) }
{
    match resource {
        Resource::Defined { .. } => None,
        Resource::Brought { .. } => Some(ValidReason::NotOwnResource),
    }
}

/// The number of the resource under an index of a type; or why the index is refused: `NoSuchIndex`
/// where nothing is there, `WrongSort` where another type is.
pub(crate) fn resource_at(types: &[TypeEntry], index: u32) -> Result<u64, ValidReason>
    ensures there { IfOk result (λ n. slice_get types.now index ≡ Some (entry.Resource n)) }
    ensures broken { IfErr result (λ r. Some r
        ≡ least (index_broken (has_sort sort.Resource) (map entry_sort types.now) index)) }
{
    match types.get(index as usize) {
        None => Err(ValidReason::NoSuchIndex),
        Some(entry) => match as_resource(entry) {
            Some(number) => Ok(number),
            None => Err(ValidReason::WrongSort),
        },
    }
}

/// Why an index of a type that has to name a resource is refused, as where a handle is dropped:
/// `NoSuchIndex` where nothing is there, `WrongSort` where another type is (Explainer.md,
/// "Canonical Built-ins").
pub fn resource_fault(types: &[TypeEntry], index: u32) -> Option<ValidReason>
    ensures { (tys : List Ty) (funcs : List FuncTy) (s : Spaces)
        → AreTypesOf tys funcs types.now s → result ≡ least (canon_broken s (resource_drop index)) }
{
    match resource_at(types, index) {
        Err(reason) => Some(reason),
        Ok(_) => None,
    }
}

impl<'a> ComponentSpaces<'a> {
    ghost use Rattle.std.specs.Prelude.{ℕ, OnErr, true};
    ghost use Rattle.cm_types.specs.DefTypes.{resource_def as resource_type};
    ghost use Rattle.cm_validate_model.specs.Items.{type_item};
    ghost use Rattle.cm_validate_model.specs.Rules.{own_resource_broken};
    ghost use Rattle.cm_validate_model.specs.Spaces.{after_item, new_types, next_resource};
    ghost use Rattle.cm_validate_types.specs.Entries.{def_of, is_entry_there};
    ghost use Rattle.cm_validate_types.specs.Settled.{IsEntrySettled};
    ghost use Rattle.cm_validate_entries.specs.ComponentSpaces.{IsComponentOf, Stays};

    /// Why a resource of this number that the component has to define is refused.
    fn own_fault(&self, number: u64) -> Option<ValidReason>
        ensures { (types : List Ty) (funcs : List FuncTy) (s : Spaces)
            → IsComponentOf types funcs self.now s
            → result ≡ least (own_resource_broken s number) }
    {
        match self.resources.get(number) {
            None => None,
            Some(resource) => brought_fault(resource),
        }
    }

    /// Why an index of a type that has to name a resource of the component's own is refused, as
    /// where a handle is made or its representation is read: `NoSuchIndex` where nothing is there,
    /// `WrongSort` where another type is, `NotOwnResource` where an import brings the resource
    /// (Explainer.md, "Canonical Built-ins"). It costs a binary search.
    pub fn own_resource_fault(&self, types: &[TypeEntry], index: u32) -> Option<ValidReason>
        ensures making { (tys : List Ty) (funcs : List FuncTy) (s : Spaces)
            → IsComponentOf tys funcs self.now s → AreTypesOf tys funcs types.now s
            → result ≡ least (canon_broken s (resource_new index)) }
        ensures reading { (tys : List Ty) (funcs : List FuncTy) (s : Spaces)
            → IsComponentOf tys funcs self.now s → AreTypesOf tys funcs types.now s
            → result ≡ least (canon_broken s (resource_rep index)) }
    {
        match resource_at(types, index) {
            Err(reason) => Some(reason),
            Ok(number) => self.own_fault(number),
        }
    }

    /// How many resources there are, which is the number of the next one.
    pub fn resource_count(&self) -> u64
        ensures { (types : List Ty) (funcs : List FuncTy) (s : Spaces)
            → IsComponentOf types funcs self.now s → result ≡ next_resource s }
    {
        self.resources.count()
    }

    /// Adds a resource that the component defines, and answers its type, which is to be added to
    /// those of the component. Its destructor is one that violates no rule. `AllocError` comes
    /// where there is no memory; the spaces then stay as they are (Binary.md, `resourcetype`).
    pub fn define_resource(&mut self, destructor: Option<u32>) -> Result<TypeEntry, AllocError>
        ensures added { IfOk result (λ t. (types : List Ty) (funcs : List FuncTy) (s : Spaces)
            → IsComponentOf types funcs self.old s
            → IsComponentOf types funcs self.new
            (after_item s (type_item (resource_type destructor)))) }
        ensures ty { IfOk result (λ t. (types : List Ty) (funcs : List FuncTy) (s : Spaces)
            → IsComponentOf types funcs self.old s
            → new_types s (type_item (resource_type destructor))
            ≡ def_of types funcs t ∷ []) }
        ensures there { IfOk result (λ t. (types funcs : ℕ) → is_entry_there types funcs t ≡ true) }
        ensures settled { IfOk result (λ t. (types : List Ty) (funcs : List FuncTy)
            → IsEntrySettled types funcs t) }
        ensures kept { OnErr result (Stays self.old self.new) }
    {
        let number = self.resources.count();
        self.resources.define(destructor)?;
        Ok(TypeEntry::Resource(number))
    }
}
