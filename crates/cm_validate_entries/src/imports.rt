//! Imports.

ghost use Rattle.std.specs.Prelude.{◌≡◌, IfOk, IfSome};

use crate::entries::{FuncEntry, InstanceEntry};
use crate::spaces::ComponentSpaces;
use crate::types::{func_at, instance_at};
use cm_binary_model::{ExternDesc, Import};
use cm_types::ExternName;
use cm_types_arena::placed_laws::unmoved;
use cm_types_arena::{Extern, ExternDesc as ExternEntry, InstanceType, Move};
use cm_validate_core::{ExternSort, FoldedName};
use cm_validate_items::InstanceItems;
use cm_validate_model::ValidReason;
use cm_validate_model::counted_laws::{moves_of_what_is_counted, resources_are_counted};
use cm_validate_model::laws::least_of_both;
use cm_validate_types::{TypeEntry, lesser};
use std::alloc::{AllocError, Global};
use std::rc::Rc;

/// These items again, shared.
fn share(items: &Rc<InstanceItems>) -> Result<Rc<InstanceItems>, AllocError>
    ensures { IfOk result (λ i. i.value ≡ items.now.value) }
{
    items.clone()
}

/// The move of the resources that an instance of a type brings, from a number on; none where their
/// numbers pass 2^64.
fn move_to(ty: &InstanceType, next: u64) -> Option<Move>
    ensures { IfSome result (λ m.
        m.first ≡ ty.now.first × m.count ≡ ty.now.fresh × m.next ≡ next) }
{
    Move::new(ty.first, ty.fresh, next)
}

impl<'a> ComponentSpaces<'a> {
    ghost use Rattle.std.specs.Prelude.{ℕ, List, OnOk, Some, length, slice_get};
    ghost use Rattle.cm_types.specs.Types.{FuncTy, Ty};
    ghost use Rattle.cm_binary_model.specs.declared.externs.ExternDesc.TheVariants as desc;
    ghost use Rattle.cm_validate_model.specs.Items.{import_item};
    ghost use Rattle.cm_validate_model.specs.Spaces.{Spaces, after_item};
    ghost use Rattle.cm_validate_core.specs.NameSets.{name_of};
    ghost use Rattle.cm_validate_types.specs.declared.entries.TypeEntry.{TypeEntry};
    ghost use Rattle.cm_validate_types.specs.declared.entries.TypeEntry.TheVariants as entry;
    ghost use Rattle.cm_validate_entries.specs.ComponentSpaces.{Answers, AreTypesOf, IsComponentOf};

    /// How many imports there are.
    fn import_count(&self) -> usize
        ensures { result ≡ length self.now.imports.items }
    {
        self.imports.len()
    }

    /// Adds an import of a function of the type of an index.
    fn import_func(
        &mut self,
        types: &[TypeEntry],
        index: u32,
        name: ExternName,
        folded: FoldedName,
    ) -> Result<Option<ValidReason>, AllocError>
        requires { name_of folded ≡ name }
        ensures { IfOk result (λ r. Answers types.now
            (import_item (record { name = name; desc = desc.Func index })) self.old r self.new) }
    {
        least_of_both();
        let fault = self.import_names.fault(&folded, ExternSort::Func);
        let ty = match func_at(types, index) {
            Ok(ty) => ty,
            Err(reason) => return Ok(lesser(Some(reason), fault)),
        };
        if fault.is_some() {
            return Ok(fault);
        }
        let import = self.import_count();
        self.push_func(FuncEntry::Imported {
            import,
            item: None,
            ty,
        })?;
        let desc = ExternEntry::Func(ty);
        self.add_import(Extern { name, desc }, folded)?;
        Ok(None)
    }

    /// Adds an instance that is imported: its items are shared, and the resources that they bring
    /// get the next numbers.
    fn add_instance(
        &mut self,
        items: &Rc<InstanceItems>,
        name: ExternName,
        folded: FoldedName,
    ) -> Result<(), AllocError>
        requires { name_of folded ≡ name }
        ensures { OnOk result ((types : List Ty) (funcs : List FuncTy) (s : Spaces)
            (es : List TypeEntry) (i : ℕ)
            → IsComponentOf types funcs self.old s → AreTypesOf types funcs es s
            → slice_get es i ≡ Some (entry.Instance items.now)
            → IsComponentOf types funcs self.new (after_item s
            (import_item (record { name = name; desc = desc.Instance i })))) }
    {
        resources_are_counted();
        moves_of_what_is_counted();
        unmoved();
        let import = self.import_count();
        let next = self.resources.count();
        let Some(by) = move_to(items.ty(), next) else {
            return Err(AllocError);
        };
        let held = share(items)?;
        let brought = share(items)?;
        let ty = items.share_type()?;
        self.push_instance(InstanceEntry::Imported {
            import,
            items: held,
            by,
        })?;
        self.resources.bring(import, brought)?;
        let desc = ExternEntry::Instance { ty, by: Some(by) };
        self.add_import(Extern { name, desc }, folded)
    }

    /// Adds an import of an instance of the type of an index.
    fn import_instance(
        &mut self,
        types: &[TypeEntry],
        index: u32,
        name: ExternName,
        folded: FoldedName,
    ) -> Result<Option<ValidReason>, AllocError>
        requires { name_of folded ≡ name }
        ensures { IfOk result (λ r. Answers types.now
            (import_item (record { name = name; desc = desc.Instance index }))
            self.old r self.new) }
    {
        least_of_both();
        let fault = self.import_names.fault(&folded, ExternSort::Instance);
        let items = match instance_at(types, index) {
            Ok(items) => items,
            Err(reason) => return Ok(lesser(Some(reason), fault)),
        };
        if fault.is_some() {
            return Ok(fault);
        }
        self.add_instance(items, name, folded)?;
        Ok(None)
    }

    /// Adds an import. Answers why it is refused: the reason with the smallest number, or none.
    /// `NoSuchIndex` comes where its type is not there, `WrongSort` where that is of another sort,
    /// `DuplicateName` where an import before it has its name, ASCII case aside, and
    /// `BadAnnotatedName` where its name is none that it may have; the spaces then stay as they are
    /// (Explainer.md, "Import and Export Definitions"). `AllocError` comes where there is no
    /// memory, or where the numbers of resources pass 2^64; the spaces are then to be dropped.
    ///
    /// What it costs is its name: neither the items of an instance nor the resources that they
    /// bring are written out.
    pub fn import(
        &mut self,
        alloc: Global,
        types: &[TypeEntry],
        import: &Import,
    ) -> Result<Option<ValidReason>, AllocError>
        ensures { IfOk result (λ r. Answers types.now (import_item import.now)
            self.old r self.new) }
    {
        let folded = FoldedName::new(alloc, &import.name)?;
        let name = import.name.clone()?;
        match import.desc {
            ExternDesc::Func(index) => self.import_func(types, index, name, folded),
            ExternDesc::Instance(index) => self.import_instance(types, index, name, folded),
        }
    }
}
