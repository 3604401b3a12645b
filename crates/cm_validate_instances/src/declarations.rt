//! The declarations of the type of an instance.

ghost use Rattle.std.specs.Prelude.{◌≡◌, ◌≤◌, length, true};
ghost use Rattle.cm_validate_types.specs.Settled.{AreItemsSettled};
ghost use Rattle.cm_validate_types.specs.SettledScopes.{AreMovedCounted};
ghost use Rattle.cm_validate_types.specs.TypeScopes.{arena_funcs, arena_types};
ghost use Rattle.cm_validate_instances.specs.CountedAround.{AreCountedAround};
ghost use Rattle.cm_validate_instances.specs.DeclaredItems.{items_in};

use cm_types::{Declaration, DeclaredType, DefValType, FuncType, OuterType};
use cm_types_arena::{InstanceType, Item};
use cm_validate_model::ValidReason;
use cm_validate_types::laws::{items_stay, moves_stay};
use cm_validate_types::{TypeEntry, TypeScope};
use std::alloc::{AllocError, Global};

/// The type of an instance while its declarations are read (Explainer.md, "Instance Types"): types
/// of its own, those of the component around, the items so far, and the number that the next
/// resource of its own gets. What an outer alias brings stands for a type of the component, so it
/// names no resource of the instance's own.
#[derive(Drop)]
pub struct Declarations {
    pub(crate) scope: TypeScope,
    pub(crate) items: Vec<Item>,
    pub(crate) first: u64,
    pub(crate) next: u64,
    ghost counted: { first ≤ next },
    ghost items_placed: { items_in (arena_types scope) (arena_funcs scope) items.items ≡ true },
    ghost moved_counted: { ∥ (AreCountedAround first scope → AreMovedCounted first scope) ∥₁ },
    ghost items_settled: { ∥ (AreCountedAround first scope
        → AreItemsSettled (arena_types scope) (arena_funcs scope) first items.items) ∥₁ },
}

impl Declarations {
    ghost use Rattle.std.specs.Prelude.{[], IfOk, IfSome, MatchOption, OnErr, map};
    ghost use Rattle.std.specs.Option.{option_map};
    ghost use Rattle.cm_types.specs.DefTypes.{declaration_tree, def_val_type_tree, func_type_tree};
    ghost use Rattle.cm_types.specs.DefTypes.{outer_type_decl};
    ghost use Rattle.cm_validate_model.specs.Declarations.{after_declaration, after_declarations};
    ghost use Rattle.cm_validate_model.specs.Declarations.{declaration_broken};
    ghost use Rattle.cm_validate_model.specs.Declarations.{instance_of, outer_type_of, scope_in};
    ghost use Rattle.cm_validate_model.specs.Declarations.{with_type};
    ghost use Rattle.cm_validate_model.specs.Scopes.{func_def_of, value_def_of};
    ghost use Rattle.cm_validate_model.specs.TypeRules.{func_def_broken, value_def_broken};
    ghost use Rattle.cm_validate_model.specs.Reasons.{least};
    ghost use Rattle.cm_validate_types.specs.Entries as entry;
    ghost use Rattle.cm_validate_types.specs.SettledScopes.{IsMovedCounted};
    ghost use Rattle.cm_validate_types.specs.TypeScopes.{HasGrown, entries_around, entries_of};
    ghost use Rattle.cm_validate_types.specs.TypeScopes.{own_types, types_around};
    ghost use Rattle.cm_validate_instances.specs.DeclaredScopes.{first_resource, scope_of};
    ghost use Rattle.cm_validate_instances.specs.DeclaredScopes.{scope_so_far};
    ghost use Rattle.cm_validate_instances.specs.FirstFaults.{first_reason};

    /// Before the first declaration, in a component with the types of this scope, whose next
    /// resource has this number.
    #[tactic(auto, using(cm_validate_types::proofs::GrowLaws::unchanged))]
    pub fn new(alloc: Global, component: TypeScope, next: u64) -> Declarations
        ensures scope { scope_so_far result ≡ scope_in (own_types component) next }
        ensures first { first_resource result ≡ next }
        ensures grown { HasGrown component (scope_of result) }
        ensures entries { entries_around (scope_of result) ≡ entries_of component }
    {
        Declarations {
            scope: component.enter(alloc),
            items: Vec::new(alloc),
            first: next,
            next,
        }
    }

    /// Reads a declaration, and answers none; or the least reason to refuse it, and then changes
    /// nothing. It costs the declaration's own length and a look-up for each label.
    ///
    /// `AllocError` comes where there is no memory, or no number for a resource; what was declared
    /// is then as it was.
    pub fn declare(
        &mut self,
        alloc: Global,
        declaration: &Declaration,
    ) -> Result<Option<ValidReason>, AllocError>
        ensures fault { IfOk result (λ r. r ≡ least
            (declaration_broken (scope_so_far self.old) (declaration_tree declaration.now))) }
        ensures declared { IfOk result (λ r. MatchOption r
            (scope_so_far self.new
            ≡ after_declaration (scope_so_far self.old) (declaration_tree declaration.now))
            (λ _. scope_so_far self.new ≡ scope_so_far self.old)) }
        ensures kept { OnErr result (scope_so_far self.new ≡ scope_so_far self.old) }
        ensures first { first_resource self.new ≡ first_resource self.old }
        ensures grown { HasGrown (scope_of self.old) (scope_of self.new) }
        ensures entries { entries_around (scope_of self.new) ≡ entries_around (scope_of self.old) }
    {
        match declaration {
            Declaration::Type(DeclaredType::Value(def)) => self.declare_value(alloc, def),
            Declaration::Type(DeclaredType::Func(def)) => self.declare_func(alloc, def),
            Declaration::OuterType(outer) => self.alias(*outer),
            Declaration::Export(export) => self.export(&export.name, export.desc),
        }
    }

    /// Reads declarations, one after another, up to the first that violates a rule: answers the
    /// least reason to refuse that one; none where no one does, and then all are read.
    ///
    /// `AllocError` comes where there is no memory, or no number for a resource. The types of the
    /// component around stay as they are, whatever comes.
    #[tactic(auto, using(cm_validate_types::proofs::GrowLaws::grown_on))]
    pub fn declare_all(
        &mut self,
        alloc: Global,
        declarations: &[Declaration],
    ) -> Result<Option<ValidReason>, AllocError>
        ensures fault { IfOk result (λ r. r
            ≡ first_reason (scope_so_far self.old) (map declaration_tree declarations.now)) }
        ensures declared { IfOk result (λ r. MatchOption r
            (scope_so_far self.new ≡ after_declarations (scope_so_far self.old)
            (map declaration_tree declarations.now))
            (λ _. Unit {0})) }
        ensures first { first_resource self.new ≡ first_resource self.old }
        ensures grown { HasGrown (scope_of self.old) (scope_of self.new) }
        ensures entries { entries_around (scope_of self.new) ≡ entries_around (scope_of self.old) }
        ensures around { (scope_so_far self.new).around ≡ (scope_so_far self.old).around }
    {
        for declaration in declarations {
            match self.declare(alloc, declaration)? {
                Some(fault) => return Ok(Some(fault)),
                None => {}
            }
        }
        Ok(None)
    }

    /// Reads the declaration of a value type, as `declare` does.
    fn declare_value(
        &mut self,
        alloc: Global,
        def: &DefValType,
    ) -> Result<Option<ValidReason>, AllocError>
        ensures fault { IfOk result (λ r. r ≡ least
            (value_def_broken (own_types self.old.scope) (def_val_type_tree def.now))) }
        ensures declared { IfOk result (λ r. MatchOption r
            (scope_so_far self.new ≡ with_type (scope_so_far self.old)
            (value_def_of (own_types self.old.scope) (def_val_type_tree def.now)))
            (λ _. scope_so_far self.new ≡ scope_so_far self.old)) }
        ensures kept { OnErr result (scope_so_far self.new ≡ scope_so_far self.old) }
        ensures first { first_resource self.new ≡ first_resource self.old }
        ensures grown { HasGrown (scope_of self.old) (scope_of self.new) }
        ensures entries { entries_around (scope_of self.new) ≡ entries_around (scope_of self.old) }
    {
        items_stay();
        moves_stay();
        self.scope.define_value(alloc, def)
    }

    /// Reads the declaration of the type of a function, as `declare` does.
    fn declare_func(
        &mut self,
        alloc: Global,
        def: &FuncType,
    ) -> Result<Option<ValidReason>, AllocError>
        ensures fault { IfOk result (λ r. r ≡ least
            (func_def_broken (own_types self.old.scope) (func_type_tree def.now))) }
        ensures declared { IfOk result (λ r. MatchOption r
            (scope_so_far self.new ≡ with_type (scope_so_far self.old)
            (func_def_of (own_types self.old.scope) (func_type_tree def.now)))
            (λ _. scope_so_far self.new ≡ scope_so_far self.old)) }
        ensures kept { OnErr result (scope_so_far self.new ≡ scope_so_far self.old) }
        ensures first { first_resource self.new ≡ first_resource self.old }
        ensures grown { HasGrown (scope_of self.old) (scope_of self.new) }
        ensures entries { entries_around (scope_of self.new) ≡ entries_around (scope_of self.old) }
    {
        items_stay();
        moves_stay();
        self.scope.define_func(alloc, def)
    }

    /// What an alias names, if it names anything.
    fn outer_entry(&self, outer: OuterType) -> Option<&TypeEntry>
        ensures there { option_map
            (λ e. entry.def_of (arena_types self.now.scope) (arena_funcs self.now.scope) e.now)
            result ≡ outer_type_of (scope_so_far self.now) outer.count outer.index }
        ensures placed { IfSome result (λ e. entry.is_entry_there
            (length (arena_types self.now.scope)) (length (arena_funcs self.now.scope)) e.now
            ≡ true) }
        ensures moved { IfSome result (λ e. AreCountedAround self.now.first self.now.scope
            → IsMovedCounted (arena_types self.now.scope) (arena_funcs self.now.scope)
            self.now.first e.now) }
    {
        moves_stay();
        match outer.count {
            0 => self.scope.get(outer.index),
            1 => self.scope.get_around(outer.index),
            _ => None,
        }
    }

    /// Reads the declaration of an alias of a type of its own or of the component, as `declare`
    /// does.
    #[tactic(auto, using(cm_validate_types::proofs::GrowLaws::unchanged))]
    fn alias(&mut self, outer: OuterType) -> Result<Option<ValidReason>, AllocError>
        ensures fault { IfOk result (λ r. r ≡ least
            (declaration_broken (scope_so_far self.old) (outer_type_decl outer))) }
        ensures declared { IfOk result (λ r. MatchOption r
            (scope_so_far self.new
            ≡ after_declaration (scope_so_far self.old) (outer_type_decl outer))
            (λ _. scope_so_far self.new ≡ scope_so_far self.old)) }
        ensures kept { OnErr result (scope_so_far self.new ≡ scope_so_far self.old) }
        ensures first { first_resource self.new ≡ first_resource self.old }
        ensures grown { HasGrown (scope_of self.old) (scope_of self.new) }
        ensures entries { entries_around (scope_of self.new) ≡ entries_around (scope_of self.old) }
    {
        match self.outer_entry(outer) {
            None => Ok(Some(ValidReason::NoSuchIndex)),
            Some(entry) => {
                let entry = entry.share()?;
                self.scope.add(entry)?;
                Ok(None)
            }
        }
    }

    /// The type that the declarations make, and the scope of the component with the types that it
    /// had. Its own types are dropped. Where the types of the component name only resources that it
    /// had before the instance's own, so does each type in an item that an outer alias brought.
    #[tactic(auto, using(cm_validate_types::proofs::GrowLaws::unchanged))]
    pub fn finish(self, alloc: Global) -> (TypeScope, InstanceType)
        ensures types { own_types result.0 ≡ (scope_so_far self).around }
        ensures around { types_around result.0 ≡ [] }
        ensures grown { HasGrown (scope_of self) result.0 }
        ensures entries { entries_of result.0 ≡ entries_around (scope_of self) }
        ensures settled { AreCountedAround (first_resource self) (scope_of self)
            → AreItemsSettled (arena_types result.0) (arena_funcs result.0) result.1.first
            result.1.items.items }
        ensures instance { entry.instance_of (arena_types result.0) (arena_funcs result.0) result.1
            ≡ instance_of (first_resource self) (scope_so_far self) }
        ensures placed { items_in (arena_types result.0) (arena_funcs result.0) result.1.items.items
            ≡ true }
    {
        let Declarations {
            scope,
            items,
            first,
            next,
            ..
        } = self;
        let instance = InstanceType {
            items,
            first,
            fresh: next - first,
        };
        (scope.leave(alloc), instance)
    }
}
