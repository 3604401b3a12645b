//! Exports among the declarations of the type of an instance.

use crate::declarations::Declarations;
use cm_types::{ExportDesc, ExternName, TypeBound};
use cm_types_arena::{Item, ItemDesc};
use cm_validate_model::ValidReason;
use cm_validate_types::TypeEntry;
use std::alloc::AllocError;

impl Declarations {
    ghost use Rattle.std.specs.Prelude.{◌≡◌, ◌++◌, ◌∷◌, [], IfOk, MatchOption, OnErr, OnOk};
    ghost use Rattle.std.specs.Prelude.{length, true};
    ghost use Rattle.cm_types.specs.declared.def_types.ExportDesc.TheVariants as desc;
    ghost use Rattle.cm_types.specs.declared.def_types.TypeBound.TheVariants as bound;
    ghost use Rattle.cm_validate_model.specs.Declarations.{export_desc_broken, with_export};
    ghost use Rattle.cm_validate_model.specs.Declarations.{with_fresh};
    ghost use Rattle.cm_validate_model.specs.Definitions.{sorts_of};
    ghost use Rattle.cm_validate_model.specs.Reasons.{least};
    ghost use Rattle.cm_types_arena.specs.Instances.{is_desc_there};
    ghost use Rattle.cm_validate_types.specs.Entries.{is_entry_there};
    ghost use Rattle.cm_validate_types.specs.Settled.{IsDescSettled};
    ghost use Rattle.cm_validate_types.specs.SettledScopes.{IsMovedCounted};
    ghost use Rattle.cm_validate_types.specs.TypeScopes.{HasGrown, arena_funcs, arena_types};
    ghost use Rattle.cm_validate_types.specs.TypeScopes.{entries_around, own_types};
    ghost use Rattle.cm_validate_instances.specs.CountedAround.{AreCountedAround};
    ghost use Rattle.cm_validate_instances.specs.DeclaredScopes.{first_resource, scope_of};
    ghost use Rattle.cm_validate_instances.specs.DeclaredScopes.{scope_so_far};
    ghost use Rattle.cm_validate_instances.specs.DeclaredScopes.{with_both, with_desc};

    /// Adds an item.
    #[tactic(auto, using(cm_validate_types::proofs::GrowLaws::unchanged))]
    fn add_item(&mut self, name: &ExternName, item: ItemDesc) -> Result<(), AllocError>
        requires placed { is_desc_there (length (arena_types self.old.scope))
            (length (arena_funcs self.old.scope)) item ≡ true }
        requires settled { AreCountedAround self.old.first self.old.scope → IsDescSettled
            (arena_types self.old.scope) (arena_funcs self.old.scope) self.old.first item }
        ensures added { OnOk result
            (scope_so_far self.new ≡ with_desc self.old name.now item) }
        ensures kept { OnErr result (scope_so_far self.new ≡ scope_so_far self.old) }
        ensures first { first_resource self.new ≡ first_resource self.old }
        ensures grown { HasGrown (scope_of self.old) (scope_of self.new) }
        ensures entries { entries_around (scope_of self.new) ≡ entries_around (scope_of self.old) }
    {
        let name = name.clone()?;
        self.items.push(Item { name, desc: item })?;
        Ok(())
    }

    /// Adds an item and a type.
    #[tactic(auto, using(cm_validate_types::proofs::GrowLaws::unchanged))]
    fn add_both(
        &mut self,
        name: &ExternName,
        item: ItemDesc,
        entry: TypeEntry,
    ) -> Result<(), AllocError>
        requires placed { is_desc_there (length (arena_types self.old.scope))
            (length (arena_funcs self.old.scope)) item ≡ true }
        requires settled { AreCountedAround self.old.first self.old.scope → IsDescSettled
            (arena_types self.old.scope) (arena_funcs self.old.scope) self.old.first item }
        requires there { is_entry_there (length (arena_types self.old.scope))
            (length (arena_funcs self.old.scope)) entry ≡ true }
        requires moved { AreCountedAround self.old.first self.old.scope → IsMovedCounted
            (arena_types self.old.scope) (arena_funcs self.old.scope) self.old.first entry }
        ensures added { OnOk result
            (scope_so_far self.new ≡ with_both self.old name.now item entry) }
        ensures kept { OnErr result (scope_so_far self.new ≡ scope_so_far self.old) }
        ensures first { first_resource self.new ≡ first_resource self.old }
        ensures grown { HasGrown (scope_of self.old) (scope_of self.new) }
        ensures entries { entries_around (scope_of self.new) ≡ entries_around (scope_of self.old) }
    {
        let name = name.clone()?;
        self.items.reserve(1)?;
        self.scope.add(entry)?;
        match self.items.push(Item { name, desc: item }) {
            Ok(()) => Ok(()),
            // Room was reserved.
            Err(_) => unreachable!(),
        }
    }

    fn export_func(
        &mut self,
        name: &ExternName,
        index: u32,
    ) -> Result<Option<ValidReason>, AllocError>
        ensures fault { IfOk result (λ r. r ≡ least
            (export_desc_broken (sorts_of (own_types self.old.scope)) (desc.Func index))) }
        ensures declared { IfOk result (λ r. MatchOption r
            (scope_so_far self.new
            ≡ with_export (scope_so_far self.old) name.now (desc.Func index))
            (λ _. scope_so_far self.new ≡ scope_so_far self.old)) }
        ensures kept { OnErr result (scope_so_far self.new ≡ scope_so_far self.old) }
        ensures first { first_resource self.new ≡ first_resource self.old }
        ensures grown { HasGrown (scope_of self.old) (scope_of self.new) }
        ensures entries { entries_around (scope_of self.new) ≡ entries_around (scope_of self.old) }
    {
        match self.scope.get(index) {
            None => Ok(Some(ValidReason::NoSuchIndex)),
            Some(TypeEntry::Func(placed)) => {
                let item = ItemDesc::Func(*placed);
                self.add_item(name, item)?;
                Ok(None)
            }
            Some(_) => Ok(Some(ValidReason::WrongSort)),
        }
    }

    #[tactic(auto, using(cm_validate_types::proofs::GrowLaws::unchanged))]
    fn export_equal(
        &mut self,
        name: &ExternName,
        index: u32,
    ) -> Result<Option<ValidReason>, AllocError>
        ensures fault { IfOk result (λ r. r ≡ least (export_desc_broken
            (sorts_of (own_types self.old.scope)) (desc.Type (bound.Equal index)))) }
        ensures declared { IfOk result (λ r. MatchOption r
            (scope_so_far self.new
            ≡ with_export (scope_so_far self.old) name.now (desc.Type (bound.Equal index)))
            (λ _. scope_so_far self.new ≡ scope_so_far self.old)) }
        ensures kept { OnErr result (scope_so_far self.new ≡ scope_so_far self.old) }
        ensures first { first_resource self.new ≡ first_resource self.old }
        ensures grown { HasGrown (scope_of self.old) (scope_of self.new) }
        ensures entries { entries_around (scope_of self.new) ≡ entries_around (scope_of self.old) }
    {
        match self.scope.get(index) {
            None => Ok(Some(ValidReason::NoSuchIndex)),
            Some(TypeEntry::Value(placed)) => {
                let placed = *placed;
                self.add_both(name, ItemDesc::EqualType(placed), TypeEntry::Value(placed))?;
                Ok(None)
            }
            Some(TypeEntry::Resource(number)) => {
                let number = *number;
                let item = ItemDesc::EqualResource(number);
                self.add_both(name, item, TypeEntry::Resource(number))?;
                Ok(None)
            }
            Some(_) => Ok(Some(ValidReason::WrongSort)),
        }
    }

    #[tactic(auto, using(cm_validate_types::proofs::GrowLaws::unchanged))]
    fn export_fresh(&mut self, name: &ExternName) -> Result<(), AllocError>
        ensures declared { OnOk result
            (scope_so_far self.new ≡ with_fresh (scope_so_far self.old) name.now) }
        ensures kept { OnErr result (scope_so_far self.new ≡ scope_so_far self.old) }
        ensures first { first_resource self.new ≡ first_resource self.old }
        ensures grown { HasGrown (scope_of self.old) (scope_of self.new) }
        ensures entries { entries_around (scope_of self.new) ≡ entries_around (scope_of self.old) }
    {
        let number = self.next;
        if number == u64::MAX {
            return Err(AllocError);
        }
        self.add_both(
            name,
            ItemDesc::FreshResource(number),
            TypeEntry::Resource(number),
        )?;
        self.next = number + 1;
        Ok(())
    }

    /// Reads an export: what it names is of the sort that it says, and gets the name.
    #[tactic(auto, using(cm_validate_types::proofs::GrowLaws::unchanged))]
    pub(crate) fn export(
        &mut self,
        name: &ExternName,
        exported: ExportDesc,
    ) -> Result<Option<ValidReason>, AllocError>
        ensures fault { IfOk result (λ r. r ≡ least
            (export_desc_broken (sorts_of (own_types self.old.scope)) exported)) }
        ensures declared { IfOk result (λ r. MatchOption r
            (scope_so_far self.new ≡ with_export (scope_so_far self.old) name.now exported)
            (λ _. scope_so_far self.new ≡ scope_so_far self.old)) }
        ensures kept { OnErr result (scope_so_far self.new ≡ scope_so_far self.old) }
        ensures first { first_resource self.new ≡ first_resource self.old }
        ensures grown { HasGrown (scope_of self.old) (scope_of self.new) }
        ensures entries { entries_around (scope_of self.new) ≡ entries_around (scope_of self.old) }
    {
        match exported {
            ExportDesc::Func(index) => self.export_func(name, index),
            ExportDesc::Type(TypeBound::Equal(index)) => self.export_equal(name, index),
            ExportDesc::Type(TypeBound::SubResource) => {
                self.export_fresh(name)?;
                Ok(None)
            }
        }
    }
}
