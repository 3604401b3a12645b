//! Whether what is exported serves what is imported.

use crate::sides::Pair;
use crate::tables::Tables;
use crate::{ExportedEntry, InstanceEntry};
use cm_match_model::LinkReason;
use cm_types_arena::{ExternDesc, Item, Move};
use cm_types_numbers::Brought;
use std::alloc::{AllocError, Global};

impl Tables {
    ghost use Rattle.std.specs.Prelude.{◌≡◌, IfOk, OnOk, map};
    ghost use Rattle.cm_types_arena.specs.Instances.{items_of, replaced_item};
    ghost use Rattle.cm_types_arena.specs.Placed.{moved_by};
    ghost use Rattle.cm_types_arena.specs.Externs.{extern_desc_of};
    ghost use Rattle.cm_types.specs.Signatures.{instance};
    ghost use Rattle.cm_validate_model.specs.Definitions.{exported_instance};
    ghost use Rattle.cm_validate_entries.specs.ComponentSpaces.{exported_def};
    ghost use Rattle.cm_validate_entries.specs.Entries.{members_of};
    ghost use Rattle.cm_match_model.specs.Serving.{item_under};
    ghost use Rattle.cm_match_serving.specs.Answers.{JudgesExtern, JudgesItem, wanted_desc};
    ghost use Rattle.cm_match_serving.specs.Sides.{had_funcs, had_types, set_of_pair};
    ghost use Rattle.cm_match_serving.specs.Sides.{wanted_funcs, wanted_types};
    ghost use Rattle.cm_match_serving.specs.Tables.{AreKnown};

    /// Why an instance of the provider does not serve an item that the importer wants, if it does
    /// not: it has no such name, or something else under it.
    fn under_fault(
        &mut self,
        alloc: Global,
        pair: &Pair<'_, '_>,
        wanted: &Item,
        by: Option<Move>,
        have: &InstanceEntry<'_>,
    ) -> Result<Option<LinkReason>, AllocError>
        requires { AreKnown pair.now.linking self.old }
        ensures fault { IfOk result (JudgesItem (set_of_pair pair.now) pair.now.importer
            (wanted_desc (wanted_types pair.now) (wanted_funcs pair.now) by wanted.now.desc)
            pair.now.provider
            (item_under (members_of (had_types pair.now) (had_funcs pair.now) have.now)
            wanted.now.name)) }
        ensures known { OnOk result (AreKnown pair.now.linking self.new) }
    {
        match have.member(wanted.name.as_str()) {
            None => Ok(Some(LinkReason::MissingExport)),
            Some(member) => self.item_fault(alloc, pair, wanted.desc, by, member),
        }
    }

    /// Why an instance of the provider does not serve the one that the importer wants, if it does
    /// not: by the first item that it does not serve. Each item costs one look-up by its name.
    fn instance_fault(
        &mut self,
        alloc: Global,
        pair: &Pair<'_, '_>,
        wanted: &[Item],
        by: Option<Move>,
        have: &InstanceEntry<'_>,
    ) -> Result<Option<LinkReason>, AllocError>
        requires { AreKnown pair.now.linking self.old }
        ensures fault { IfOk result (JudgesExtern (set_of_pair pair.now) pair.now.importer
            (instance (map (replaced_item (moved_by by))
            (items_of (wanted_types pair.now) (wanted_funcs pair.now) wanted.now)))
            pair.now.provider
            (exported_instance (members_of (had_types pair.now) (had_funcs pair.now) have.now))) }
        ensures known { OnOk result (AreKnown pair.now.linking self.new) }
    {
        for item in wanted {
            let fault = self.under_fault(alloc, pair, item, by, have)?;
            if fault.is_some() {
                return Ok(fault);
            }
        }
        Ok(None)
    }

    /// Why what the provider exports does not serve what the importer imports, if it does not.
    pub(crate) fn extern_fault(
        &mut self,
        alloc: Global,
        pair: &Pair<'_, '_>,
        wanted: &ExternDesc,
        have: &ExportedEntry<'_>,
    ) -> Result<Option<LinkReason>, AllocError>
        requires { AreKnown pair.now.linking self.old }
        ensures fault { IfOk result (JudgesExtern (set_of_pair pair.now) pair.now.importer
            (extern_desc_of (wanted_types pair.now) (wanted_funcs pair.now) wanted.now)
            pair.now.provider (exported_def (had_types pair.now) (had_funcs pair.now) have.now)) }
        ensures known { OnOk result (AreKnown pair.now.linking self.new) }
    {
        match wanted {
            ExternDesc::Func(ty) => match have {
                ExportedEntry::Func(func) => {
                    let wanted = Brought { ty: *ty, by: None };
                    self.func_fault(alloc, pair, wanted, *func)
                }
                ExportedEntry::Instance(_) => Ok(Some(LinkReason::DifferentType)),
            },
            ExternDesc::Instance { ty, by } => match have {
                ExportedEntry::Instance(instance) => {
                    self.instance_fault(alloc, pair, &ty.items, *by, instance)
                }
                ExportedEntry::Func(_) => Ok(Some(LinkReason::DifferentType)),
            },
        }
    }
}
