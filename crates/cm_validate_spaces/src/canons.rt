//! Canonical definitions.

ghost use Rattle.std.specs.Prelude.{◌≡◌, IfOk, IfSome, List, None, length, slice_get, true};
ghost use Rattle.std.specs.Prelude.{ℕ, OnOk, Some};
ghost use Rattle.std.specs.Option.{option_and_then, option_map};
ghost use Rattle.cm_types.specs.Types.{FuncTy, Ty};
ghost use Rattle.cm_binary_model.specs.Trees.{canon_tree, lift, lower, resource_drop, resource_new};
ghost use Rattle.cm_binary_model.specs.Trees.{resource_rep};
ghost use Rattle.cm_layout_placed.specs.Placed.{layouts_in};
ghost use Rattle.cm_validate_model.specs.Items.{canon_item};
ghost use Rattle.cm_validate_model.specs.Scopes.{resource_in};
ghost use Rattle.cm_validate_model.specs.Spaces.{Spaces, canon_core_func};
ghost use Rattle.cm_validate_types.specs.Entries.{in_arena};
ghost use Rattle.cm_validate_types.specs.TypeScopes.{arena_funcs, arena_types, entries_of};
ghost use Rattle.cm_validate_types.specs.TypeScopes.{own_types};
ghost use Rattle.cm_validate_entries.specs.ComponentSpaces.{IsComponentOf};
ghost use Rattle.cm_validate_canons.specs.Types.{funcs_in, types_in};
ghost use Rattle.cm_validate_spaces.specs.Made.{is_made_there, made_def};

use crate::made::MadeFunc;
use crate::spaces::IndexSpaces;
use cm_binary_model::{Canon, CanonOption};
use cm_layout_placed::Layouts;
use cm_validate_canons::{LaidTypes, add_lift, lower_fault};
use cm_validate_entries::laws::others_add_nothing as component_stays;
use cm_validate_entries::{ComponentSpaces, FuncEntry, resource_fault};
use cm_validate_model::ValidReason;
use cm_validate_types::{TypeEntry, TypeScope};
use std::alloc::{AllocError, Global};

/// Types with the layouts of their arena.
fn laid<'b>(types: &'b TypeScope, layouts: &'b Layouts) -> LaidTypes<'b>
    ensures types { types_in result ≡ arena_types types.now }
    ensures funcs { funcs_in result ≡ arena_funcs types.now }
    ensures entries { result.entries.now ≡ entries_of types.now }
    ensures placed { in_arena (types_in result) (funcs_in result) result.entries.now ≡ true }
    ensures layouts { layouts_in result.layouts.now ≡ layouts_in layouts.now }
{
    LaidTypes {
        entries: types.entries(),
        arena: types.types(),
        layouts,
    }
}

/// The number of the resource under an index of a type, if one stands there.
fn resource_at(types: &TypeScope, index: u32) -> Option<u64>
    ensures { result ≡ option_and_then resource_in (slice_get (own_types types.now) index) }
{
    match types.get(index) {
        Some(TypeEntry::Resource(number)) => Some(*number),
        _ => None,
    }
}

/// The core function that makes handles of the resource under an index of a type, if one is there.
fn making<'a>(types: &TypeScope, index: u32) -> Option<MadeFunc<'a>>
    ensures def { (funcs : List FuncTy) (s : Spaces) → s.types ≡ own_types types.now
        → option_map (made_def funcs) result ≡ canon_core_func s (resource_new index) }
    ensures there { (funcs : ℕ) → IfSome result (λ m. is_made_there funcs m ≡ true) }
{
    Some(MadeFunc::Making(resource_at(types, index)?))
}

/// The core function that drops handles of a resource.
fn dropping<'a>(types: &TypeScope, index: u32) -> Option<MadeFunc<'a>>
    ensures def { (funcs : List FuncTy) (s : Spaces) → s.types ≡ own_types types.now
        → option_map (made_def funcs) result ≡ canon_core_func s (resource_drop index) }
    ensures there { (funcs : ℕ) → IfSome result (λ m. is_made_there funcs m ≡ true) }
{
    Some(MadeFunc::Dropping(resource_at(types, index)?))
}

/// The core function that reads the representation behind a handle of a resource.
fn reading<'a>(types: &TypeScope, index: u32) -> Option<MadeFunc<'a>>
    ensures def { (funcs : List FuncTy) (s : Spaces) → s.types ≡ own_types types.now
        → option_map (made_def funcs) result ≡ canon_core_func s (resource_rep index) }
    ensures there { (funcs : ℕ) → IfSome result (λ m. is_made_there funcs m ≡ true) }
{
    Some(MadeFunc::Reading(resource_at(types, index)?))
}

/// The core function that a lower makes of the function of an index, if that is an import.
fn lowered<'a>(
    component: &ComponentSpaces<'a>,
    func: u32,
    options: &'a [CanonOption],
) -> Option<MadeFunc<'a>>
    ensures def { (types : List Ty) (funcs : List FuncTy) (s : Spaces)
        → IsComponentOf types funcs component.now s
        → option_map (made_def funcs) result ≡ canon_core_func s (lower func options.now) }
    ensures there { (types : List Ty) (funcs : List FuncTy) (s : Spaces)
        → IsComponentOf types funcs component.now s
        → IfSome result (λ m. is_made_there (length funcs) m ≡ true) }
{
    match component.func(func) {
        Some(FuncEntry::Imported { import, item, ty }) => Some(MadeFunc::Lowered {
            import,
            item,
            ty,
            options,
        }),
        _ => None,
    }
}

impl<'a> IndexSpaces<'a> {
    ghost use Rattle.cm_validate_spaces.specs.IndexSpaces.{Answers, Stands};
    ghost use Rattle.cm_validate_spaces.specs.Making.{Makes};

    /// Adds a lift.
    fn lift(
        &mut self,
        alloc: Global,
        core_func: u32,
        options: &'a [CanonOption],
        ty: u32,
    ) -> Result<Option<ValidReason>, AllocError>
        requires { Stands self.old }
        ensures { IfOk result (λ r. Answers (canon_item (lift core_func options.now ty))
            self.old r self.new) }
    {
        self.layouts.extend(alloc, self.types.types())?;
        let types = laid(&self.types, &self.layouts);
        add_lift(
            &mut self.core,
            &mut self.component,
            &types,
            core_func,
            options,
            ty,
        )
    }

    /// Adds the core function made by a canonical definition that violates no rule.
    fn push_made(&mut self, canon: &Canon, made: MadeFunc<'a>) -> Result<(), AllocError>
        requires { Makes self.old (canon_tree canon.now) None (Some made) }
        ensures { OnOk result (Answers (canon_item (canon_tree canon.now))
            self.old None self.new) }
    {
        self.core.add_canon(canon)?;
        self.made.push(made)?;
        Ok(())
    }

    /// Adds a canonical definition that makes a core function, unless it violates a rule.
    fn make(
        &mut self,
        canon: &Canon,
        fault: Option<ValidReason>,
        made: Option<MadeFunc<'a>>,
    ) -> Result<Option<ValidReason>, AllocError>
        requires { Makes self.old (canon_tree canon.now) fault made }
        ensures { IfOk result (λ r. Answers (canon_item (canon_tree canon.now))
            self.old r self.new) }
    {
        if fault.is_some() {
            return Ok(fault);
        }
        match made {
            None => Ok(None),
            Some(made) => {
                self.push_made(canon, made)?;
                Ok(None)
            }
        }
    }

    /// Adds a lower.
    fn lower(
        &mut self,
        alloc: Global,
        canon: &Canon,
        func: u32,
        options: &'a [CanonOption],
    ) -> Result<Option<ValidReason>, AllocError>
        requires stands { Stands self.old }
        requires lower { canon_tree canon.now ≡ lower func options.now }
        ensures { IfOk result (λ r. Answers (canon_item (canon_tree canon.now))
            self.old r self.new) }
    {
        component_stays();
        self.layouts.extend(alloc, self.types.types())?;
        let types = laid(&self.types, &self.layouts);
        let fault = lower_fault(&self.core, &self.component, &types, func, options);
        let made = lowered(&self.component, func, options);
        self.make(canon, fault, made)
    }

    /// Adds the core function that makes handles of a resource.
    fn resource_new(
        &mut self,
        canon: &Canon,
        resource: u32,
    ) -> Result<Option<ValidReason>, AllocError>
        requires { canon_tree canon.now ≡ resource_new resource }
        ensures { IfOk result (λ r. Answers (canon_item (canon_tree canon.now))
            self.old r self.new) }
    {
        component_stays();
        let types = self.types.entries();
        let fault = self.component.own_resource_fault(types, resource);
        let made = making(&self.types, resource);
        self.make(canon, fault, made)
    }

    /// Adds the core function that drops handles of a resource.
    fn resource_drop(
        &mut self,
        canon: &Canon,
        resource: u32,
    ) -> Result<Option<ValidReason>, AllocError>
        requires { canon_tree canon.now ≡ resource_drop resource }
        ensures { IfOk result (λ r. Answers (canon_item (canon_tree canon.now))
            self.old r self.new) }
    {
        component_stays();
        let fault = resource_fault(self.types.entries(), resource);
        let made = dropping(&self.types, resource);
        self.make(canon, fault, made)
    }

    /// Adds the core function that reads the representation behind a handle of a resource.
    fn resource_rep(
        &mut self,
        canon: &Canon,
        resource: u32,
    ) -> Result<Option<ValidReason>, AllocError>
        requires { canon_tree canon.now ≡ resource_rep resource }
        ensures { IfOk result (λ r. Answers (canon_item (canon_tree canon.now))
            self.old r self.new) }
    {
        component_stays();
        let types = self.types.entries();
        let fault = self.component.own_resource_fault(types, resource);
        let made = reading(&self.types, resource);
        self.make(canon, fault, made)
    }

    /// Adds a canonical definition. Answers the least reason to refuse it, or none; nothing is
    /// added then (Explainer.md, "Canonical Definitions"). `NoSuchIndex` comes where what it or an
    /// option of it names is not there, `WrongSort` where a type is of another sort,
    /// `NotOwnResource` where handles are made, or their representations read, of a resource that
    /// an import brings; of a lift and a lower `lift_fault` and `lower_fault` of
    /// `cm_validate_canons` say more. `AllocError` comes where there is no memory; the spaces are
    /// then to be dropped. It costs its options, and the layouts of the types that were added since
    /// a lift or a lower before it.
    pub fn add_canon(
        &mut self,
        alloc: Global,
        canon: &'a Canon,
    ) -> Result<Option<ValidReason>, AllocError>
        requires { Stands self.old }
        ensures { IfOk result (λ r. Answers (canon_item (canon_tree canon.now))
            self.old r self.new) }
    {
        match canon {
            Canon::Lift {
                core_func,
                options,
                ty,
            } => self.lift(alloc, *core_func, options, *ty),
            Canon::Lower { func, options } => self.lower(alloc, canon, *func, options),
            Canon::ResourceNew { resource } => self.resource_new(canon, *resource),
            Canon::ResourceDrop { resource } => self.resource_drop(canon, *resource),
            Canon::ResourceRep { resource } => self.resource_rep(canon, *resource),
        }
    }
}
