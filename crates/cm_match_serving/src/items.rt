//! Whether what stands under a name serves what is wanted.

ghost use Rattle.std.specs.Prelude.{◌≡◌, ℕ, List, None, Some, if◌then◌else◌};
ghost use Rattle.cm_types.specs.Signatures.{equal_resource, fresh_resource};
ghost use Rattle.cm_types.specs.Types.{FuncTy, Ty};
ghost use Rattle.cm_types.specs.declared.resource.ResourceId.{ResourceId as Resource};
ghost use Rattle.cm_types_arena.specs.Instances.{numbered};
ghost use Rattle.cm_types_arena.specs.Placed.{placed_func};
ghost use Rattle.cm_validate_model.specs.Definitions.{func_type_of};
ghost use Rattle.cm_match_model.specs.declared.fault.LinkReason.TheVariants as reason;
ghost use Rattle.cm_match_model.specs.Imports.{LinkSet};
ghost use Rattle.cm_match_model.specs.Serving.{standing};
ghost use Rattle.cm_validate_entries.specs.Entries.{func_def, member_def};
ghost use Rattle.cm_validate_model.specs.Spaces.{item_of_member};
ghost use Rattle.cm_match_serving.specs.Answers.{Judges, JudgesItem};
ghost use Rattle.cm_match_serving.specs.Sides.{set_of_pair};

use crate::sides::Pair;
use crate::tables::Tables;
use crate::{FuncEntry, MemberEntry};
use cm_match_model::LinkReason;
use cm_types::{ResourceId, same_resource};
use cm_types_arena::laws::replacing;
use cm_types_arena::{ItemDesc, Move, Placed, Replacement, moved_resource};
use cm_types_numbers::Brought;
use std::alloc::{AllocError, Global};

/// The type of a function.
fn func_type(func: FuncEntry<'_>) -> Placed
    ensures { (funcs : List FuncTy)
        → placed_func funcs result ≡ func_type_of (func_def funcs func.entry) }
{
    match func {
        FuncEntry::Lifted { ty, .. } => ty,
        FuncEntry::Imported { ty, .. } => ty,
    }
}

/// `DifferentType`, where a type is not the same.
fn unless_same(same: bool) -> Option<LinkReason>
    ensures { result ≡ if same then None else Some reason.DifferentType }
{
    if same {
        None
    } else {
        Some(LinkReason::DifferentType)
    }
}

/// The resource of a number of a component.
fn resource(number: u64) -> ResourceId
    ensures { result ≡ numbered number }
{
    ResourceId {
        component: 0,
        number,
    }
}

/// Why a resource of the provider is not the one that the importer says, if it is not: it is
/// another one in the end.
fn known_fault(pair: &Pair<'_, '_>, wanted: ResourceId, have: ResourceId) -> Option<LinkReason>
    ensures { Judges (standing (set_of_pair pair.now) pair.now.importer wanted
        ≡ standing (set_of_pair pair.now) pair.now.provider have) reason.DifferentResource result }
{
    if same_resource(
        pair.importer().replace(wanted),
        pair.provider().replace(have),
    ) {
        None
    } else {
        Some(LinkReason::DifferentResource)
    }
}

/// What serves a resource that the importer says is another one: that one.
fn known_item(pair: &Pair<'_, '_>, wanted: ResourceId, have: MemberEntry<'_>) -> Option<LinkReason>
    ensures { (types : List Ty) (funcs : List FuncTy) → JudgesItem (set_of_pair pair.now)
        pair.now.importer (equal_resource wanted) pair.now.provider
        (item_of_member (member_def types funcs have.entry)) result }
{
    match have {
        MemberEntry::Resource(number) => known_fault(pair, wanted, resource(number)),
        MemberEntry::Func(_) => Some(LinkReason::DifferentType),
        MemberEntry::Value(_) => Some(LinkReason::DifferentType),
    }
}

/// What serves a resource that an import brings: any resource.
fn fresh_item(have: MemberEntry<'_>) -> Option<LinkReason>
    ensures { (set : LinkSet) (importer provider : ℕ) (wanted : Resource) (types : List Ty)
        (funcs : List FuncTy) → JudgesItem set importer (fresh_resource wanted) provider
        (item_of_member (member_def types funcs have.entry)) result }
{
    match have {
        MemberEntry::Resource(_) => None,
        MemberEntry::Func(_) => Some(LinkReason::DifferentType),
        MemberEntry::Value(_) => Some(LinkReason::DifferentType),
    }
}

impl Tables {
    ghost use Rattle.std.specs.Prelude.{IfOk, OnOk};
    ghost use Rattle.cm_types.specs.Signatures.{equal_type, func_item};
    ghost use Rattle.cm_match_model.specs.Serving.{IsSameFunc};
    ghost use Rattle.cm_match_serving.specs.Answers.{wanted_desc};
    ghost use Rattle.cm_match_serving.specs.Sides.{had_funcs, had_types, wanted_funcs};
    ghost use Rattle.cm_match_serving.specs.Sides.{wanted_types};
    ghost use Rattle.cm_match_serving.specs.Tables.{AreKnown, func_brought, type_brought};

    /// Why a function of the provider is not one that the importer wants, if it is not.
    pub(crate) fn func_fault(
        &mut self,
        alloc: Global,
        pair: &Pair<'_, '_>,
        wanted: Brought,
        have: FuncEntry<'_>,
    ) -> Result<Option<LinkReason>, AllocError>
        requires { AreKnown pair.now.linking self.old }
        ensures fault { IfOk result (Judges (IsSameFunc (set_of_pair pair.now)
            pair.now.importer (func_brought (wanted_funcs pair.now) wanted)
            pair.now.provider (func_type_of (func_def (had_funcs pair.now) have.entry)))
            reason.DifferentType) }
        ensures known { OnOk result (AreKnown pair.now.linking self.new) }
    {
        let have = Brought {
            ty: func_type(have),
            by: None,
        };
        let same = self.same_funcs(alloc, pair, wanted, have)?;
        Ok(unless_same(same))
    }

    /// What serves a function: one of the same type.
    fn func_item(
        &mut self,
        alloc: Global,
        pair: &Pair<'_, '_>,
        wanted: Brought,
        have: MemberEntry<'_>,
    ) -> Result<Option<LinkReason>, AllocError>
        requires { AreKnown pair.now.linking self.old }
        ensures fault { IfOk result (JudgesItem (set_of_pair pair.now)
            pair.now.importer (func_item (func_brought (wanted_funcs pair.now) wanted))
            pair.now.provider
            (item_of_member (member_def (had_types pair.now) (had_funcs pair.now) have.entry))) }
        ensures known { OnOk result (AreKnown pair.now.linking self.new) }
    {
        match have {
            MemberEntry::Func(func) => self.func_fault(alloc, pair, wanted, func),
            MemberEntry::Value(_) => Ok(Some(LinkReason::DifferentType)),
            MemberEntry::Resource(_) => Ok(Some(LinkReason::DifferentType)),
        }
    }

    /// What serves a value type: the same one.
    fn type_item(
        &mut self,
        alloc: Global,
        pair: &Pair<'_, '_>,
        wanted: Brought,
        have: MemberEntry<'_>,
    ) -> Result<Option<LinkReason>, AllocError>
        requires { AreKnown pair.now.linking self.old }
        ensures fault { IfOk result (JudgesItem (set_of_pair pair.now)
            pair.now.importer (equal_type (type_brought (wanted_types pair.now) wanted))
            pair.now.provider
            (item_of_member (member_def (had_types pair.now) (had_funcs pair.now) have.entry))) }
        ensures known { OnOk result (AreKnown pair.now.linking self.new) }
    {
        match have {
            MemberEntry::Value(ty) => {
                let have = Brought { ty, by: None };
                let same = self.same_types(alloc, pair, wanted, have)?;
                Ok(unless_same(same))
            }
            MemberEntry::Func(_) => Ok(Some(LinkReason::DifferentType)),
            MemberEntry::Resource(_) => Ok(Some(LinkReason::DifferentType)),
        }
    }

    /// Why a member of an instance of the provider does not serve an item that the importer wants,
    /// if it does not.
    pub(crate) fn item_fault(
        &mut self,
        alloc: Global,
        pair: &Pair<'_, '_>,
        wanted: ItemDesc,
        by: Option<Move>,
        have: MemberEntry<'_>,
    ) -> Result<Option<LinkReason>, AllocError>
        requires { AreKnown pair.now.linking self.old }
        ensures fault { IfOk result (JudgesItem (set_of_pair pair.now)
            pair.now.importer
            (wanted_desc (wanted_types pair.now) (wanted_funcs pair.now) by wanted)
            pair.now.provider
            (item_of_member (member_def (had_types pair.now) (had_funcs pair.now) have.entry))) }
        ensures known { OnOk result (AreKnown pair.now.linking self.new) }
    {
        replacing();
        match wanted {
            ItemDesc::Func(ty) => self.func_item(alloc, pair, Brought { ty, by }, have),
            ItemDesc::EqualType(ty) => self.type_item(alloc, pair, Brought { ty, by }, have),
            ItemDesc::EqualResource(number) => {
                Ok(known_item(pair, moved_resource(by, resource(number)), have))
            }
            ItemDesc::FreshResource(_) => Ok(fresh_item(have)),
        }
    }
}
