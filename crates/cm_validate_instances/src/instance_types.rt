//! The type of an instance, defined.

ghost use Rattle.std.specs.Prelude.{◌≡◌, ◌++◌, ◌∷◌, [], None, IfOk, MatchOption, OnErr, OnOk, map};
ghost use Rattle.std.specs.Prelude.{length, true};
ghost use Rattle.std.specs.List.{AllByRecursion};
ghost use Rattle.cm_types.specs.DefTypes.{declaration_tree};
ghost use Rattle.cm_validate_model.specs.Declarations.{instance_def_broken, instance_defined};
ghost use Rattle.cm_validate_model.specs.Definitions.{instance_type};
ghost use Rattle.cm_validate_model.specs.Reasons.{least};
ghost use Rattle.cm_types_arena.specs.Instances.{are_items_there};
ghost use Rattle.cm_validate_model.specs.CountedSpaces.{IsDefCounted};
ghost use Rattle.cm_validate_types.specs.Entries.{instance_of};
ghost use Rattle.cm_validate_types.specs.Settled.{AreItemsSettled};
ghost use Rattle.cm_validate_types.specs.SettledScopes.{AreSettled};
ghost use Rattle.cm_validate_types.specs.TypeScopes.{arena_funcs, arena_types, own_types};
ghost use Rattle.cm_validate_types.specs.TypeScopes.{HasGrown, types_around};
ghost use Rattle.cm_validate_instances.specs.Faults.{besides_limits};

use crate::declaration_laws::first_reasons;
use crate::declarations::Declarations;
use crate::instance_laws::instances_are_sketched;
use crate::name_laws::names_are_sketched;
use crate::passes::sketched_fault;
use crate::sketch_laws::limits_come_last;
use cm_types::Declaration;
use cm_types_arena::InstanceType;
use cm_validate_items::InstanceItems;
use cm_validate_model::ValidReason;
use cm_validate_types::laws::moves_stay;
use cm_validate_types::{TypeEntry, TypeScope};
use std::alloc::{AllocError, Global};
use std::mem;
use std::rc::Rc;

/// Adds the type of an instance, with its items by name.
#[tactic(auto, using(cm_validate_types::proofs::GrowLaws::unchanged))]
fn add_instance(
    component: &mut TypeScope,
    alloc: Global,
    instance: InstanceType,
) -> Result<(), AllocError>
    requires there { are_items_there (length (arena_types component.old))
        (length (arena_funcs component.old)) instance.items.items ≡ true }
    ensures added { OnOk result (own_types component.new ≡ own_types component.old
        ++ instance_type (instance_of (arena_types component.old) (arena_funcs component.old)
        instance) ∷ []) }
    ensures kept { OnErr result (own_types component.new ≡ own_types component.old) }
    ensures around { types_around component.new ≡ types_around component.old }
    ensures grown { HasGrown component.old component.new }
    ensures settled { AreItemsSettled (arena_types component.old) (arena_funcs component.old)
        instance.first instance.items.items → AreSettled component.old → AreSettled component.new }
{
    let items = InstanceItems::new(alloc, Rc::new(alloc, instance)?)?;
    component.add(TypeEntry::Instance(Rc::new(alloc, items)?))
}

/// Reads the type of an instance that violates no rule but for the limits.
#[tactic(auto, using(crate::proofs::GrowLaws::through))]
fn defined(
    alloc: Global,
    component: TypeScope,
    declarations: &[Declaration],
    next: u64,
) -> (TypeScope, Result<Option<ValidReason>, AllocError>)
    requires within { least (besides_limits (instance_def_broken (own_types component) next
        (map declaration_tree declarations.now))) ≡ None }
    ensures fault { IfOk result.1 (λ r. r ≡ least
        (instance_def_broken (own_types component) next (map declaration_tree declarations.now))) }
    ensures defined { IfOk result.1 (λ r. MatchOption r
        (own_types result.0 ≡ own_types component
        ++ instance_type (instance_defined (own_types component) next
        (map declaration_tree declarations.now)) ∷ [])
        (λ _. own_types result.0 ≡ own_types component)) }
    ensures kept { OnErr result.1 (own_types result.0 ≡ own_types component) }
    ensures around { types_around result.0 ≡ [] }
    ensures grown { HasGrown component result.0 }
    ensures settled { AllByRecursion (IsDefCounted next) (own_types component)
        → AreSettled component → AreSettled result.0 }
{
    instances_are_sketched();
    limits_come_last();
    names_are_sketched();
    first_reasons();
    moves_stay();
    let mut reading = Declarations::new(alloc, component, next);
    match reading.declare_all(alloc, declarations) {
        Err(AllocError) => {
            let (component, _instance) = reading.finish(alloc);
            (component, Err(AllocError))
        }
        Ok(Some(_)) => {
            let (component, _instance) = reading.finish(alloc);
            (component, Ok(Some(ValidReason::TooLarge)))
        }
        Ok(None) => {
            let (mut component, instance) = reading.finish(alloc);
            match add_instance(&mut component, alloc, instance) {
                Ok(()) => (component, Ok(None)),
                Err(AllocError) => (component, Err(AllocError)),
            }
        }
    }
}

/// Defines the type of an instance in a scope, which is changed in place.
fn define_within(
    scope: &mut TypeScope,
    alloc: Global,
    declarations: &[Declaration],
    next: u64,
) -> Result<Option<ValidReason>, AllocError>
    requires within { least (besides_limits (instance_def_broken (own_types scope.old) next
        (map declaration_tree declarations.now))) ≡ None }
    ensures fault { IfOk result (λ r. r ≡ least
        (instance_def_broken (own_types scope.old) next (map declaration_tree declarations.now))) }
    ensures defined { IfOk result (λ r. MatchOption r
        (own_types scope.new ≡ own_types scope.old
        ++ instance_type (instance_defined (own_types scope.old) next
        (map declaration_tree declarations.now)) ∷ [])
        (λ _. own_types scope.new ≡ own_types scope.old)) }
    ensures kept { OnErr result (own_types scope.new ≡ own_types scope.old) }
    ensures around { types_around scope.old ≡ [] → types_around scope.new ≡ [] }
    ensures grown { HasGrown scope.old scope.new }
    ensures settled { AllByRecursion (IsDefCounted next) (own_types scope.old)
        → AreSettled scope.old → AreSettled scope.new }
{
    let empty = TypeScope::new(alloc)?;
    let component = mem::replace(scope, empty);
    let (component, answer) = defined(alloc, component, declarations, next);
    *scope = component;
    answer
}

/// Adds the type of an instance as its declarations say it, and answers none; or the least reason
/// to refuse any of them or the names of its items, and then adds nothing (Explainer.md, "Instance
/// Types"). `scope` has the types of the component, whose next resource has the number `next`: the
/// resources of the instance's own are numbered from there on.
///
/// It costs the declarations' own length and a look-up for each label and name; of the types of the
/// component those alone are looked at that a declaration names.
///
/// `AllocError` comes where there is no memory; the types are then as they were. Whatever comes,
/// each place of the arena stands for what it stood for. And what an outer alias brings into the
/// type of an instance names no resource of that instance: it stands for a type of the component,
/// whose resources have numbers before `next` (Explainer.md, "Alias Definitions").
#[tactic(auto, using(cm_validate_types::proofs::GrowLaws::same))]
pub fn define_instance(
    scope: &mut TypeScope,
    alloc: Global,
    declarations: &[Declaration],
    next: u64,
) -> Result<Option<ValidReason>, AllocError>
    ensures fault { IfOk result (λ r. r ≡ least
        (instance_def_broken (own_types scope.old) next (map declaration_tree declarations.now))) }
    ensures defined { IfOk result (λ r. MatchOption r
        (own_types scope.new ≡ own_types scope.old
        ++ instance_type (instance_defined (own_types scope.old) next
        (map declaration_tree declarations.now)) ∷ [])
        (λ _. own_types scope.new ≡ own_types scope.old)) }
    ensures kept { OnErr result (own_types scope.new ≡ own_types scope.old) }
    ensures around { types_around scope.old ≡ [] → types_around scope.new ≡ [] }
    ensures grown { HasGrown scope.old scope.new }
    ensures settled { AllByRecursion (IsDefCounted next) (own_types scope.old)
        → AreSettled scope.old → AreSettled scope.new }
{
    instances_are_sketched();
    match sketched_fault(alloc, scope, declarations, next)? {
        Some(fault) => Ok(Some(fault)),
        None => define_within(scope, alloc, declarations, next),
    }
}
