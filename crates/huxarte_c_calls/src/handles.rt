//! Handle tables that are handed over.

ghost use Rattle.std.specs.Prelude.{◌≡◌, ◌^◌, ◌<◌, ◌++◌, ◌∷◌, [], IfErr, IfOk, List, OnOk};
ghost use Rattle.cm_abi_model.specs.Lifts.{LendsBelow};
ghost use Rattle.huxarte_c_calls.specs.HandedOver.{IsTableFault, handle_kind, handle_of};
ghost use Rattle.huxarte_c_calls.specs.HandedOver.{handles_of};
ghost use Rattle.huxarte_c_calls.specs.declared.handles.HuxHandle.{HuxHandle as Handed};

use cm_handles::{Handle, HandleFault, HandleKind, Table};
use cm_types::ResourceId;
use std::alloc::Global;

/// A handle of a table (CanonicalABI.md, "Resource State").
#[repr(C)]
#[derive(Clone, Copy)]
pub struct HuxHandle {
    /// Which resource of its component: the number counts its resources from 0.
    pub number: u64,
    /// Which resource of all that were made, so that two handles of one are told from others.
    pub serial: u64,
    /// How many calls have borrowed the handle and have not ended yet.
    pub lends: u64,
    /// Which component defines the resource, from 0; in a component on its own 0.
    pub component: u32,
    /// The representation.
    pub rep: u32,
    /// 1 where the handle owns the resource, 0 where it was borrowed.
    pub owned: u32,
    /// The call that borrowed it, where it was borrowed.
    pub call: u32,
}

/// Whether a handle owns its resource, or which call borrowed it.
fn handle_kind(owned: u32, call: u32) -> HandleKind
    ensures { result ≡ handle_kind owned call }
{
    if owned == 0 {
        HandleKind::Borrowed { call }
    } else {
        HandleKind::Owned
    }
}

/// The handle that is handed over.
fn handle_of(given: &HuxHandle) -> Handle
    ensures value { result ≡ handle_of given.now }
    ensures lends { result.lends < 2 ^ 100 }
{
    let resource = ResourceId {
        component: given.component,
        number: given.number,
    };
    Handle {
        resource,
        serial: given.serial,
        lends: u128::from(given.lends),
        rep: given.rep,
        kind: handle_kind(given.owned, given.call),
    }
}

/// Adds a handle to a table.
fn add_handle(table: &mut Table, given: &HuxHandle) -> Result<(), HandleFault>
    ensures handles { (hs : List Handed) → table.old.handles ≡ handles_of hs
        → OnOk result (table.new.handles ≡ handles_of (hs ++ given.now ∷ [])) }
    ensures lends { LendsBelow (2 ^ 100) table.old.handles
        → OnOk result (LendsBelow (2 ^ 100) table.new.handles) }
    ensures refused { (hs : List Handed) → table.old.handles ≡ handles_of hs
        → IfErr result (IsTableFault (hs ++ given.now ∷ [])) }
{
    match table.add(handle_of(given)) {
        Ok(_) => Ok(()),
        Err(fault) => Err(fault),
    }
}

/// The table with these handles, under the indices from 1 on. At most 65,535 are there.
pub(crate) fn table_of(alloc: Global, handles: &[HuxHandle]) -> Result<Table, HandleFault>
    ensures handles { IfOk result (λ t. t.handles ≡ handles_of handles.now) }
    ensures lends { IfOk result (λ t. LendsBelow (2 ^ 100) t.handles) }
    ensures refused { IfErr result (IsTableFault handles.now) }
{
    let mut table = Table::new(alloc);
    for handle in handles {
        add_handle(&mut table, handle)?;
    }
    Ok(table)
}
