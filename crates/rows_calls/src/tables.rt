//! Handle tables as rows spell them.
//!
//! A table is `-`, or handles joined by commas, each of resource 0 of component 0 or, with a `'`
//! before it, of resource 1: an owned one is `oSERIAL`, a borrow by call 7 `bSERIAL`, and `+LENDS`
//! behind it says how often it is lent. Its representation is its serial number and 100. `N*`
//! before a handle stands for N of it.

ghost use Rattle.std.specs.Prelude.{◌<◌, ◌^◌};
ghost use Rattle.cm_abi_model.specs.Lifts.{LendsBelow};

use cm_abi_model::AbiFault;
use cm_handles::{Handle, HandleFault, HandleKind, Table};
use cm_rows::{Line, RowFault, split_repeat};
use cm_types::ResourceId;
use std::alloc::Global;

/// The table that a word spells. Its handles are lent fewer than 256 times, so few enough for what
/// lifts them.
#[tactic(auto, using(crate::proofs::TableLemmas::lends))]
pub fn read_table(alloc: Global, word: &str, line: &mut Line) -> Table
    ensures { LendsBelow (2 ^ 100) result.handles }
{
    let mut table = empty(alloc);
    if word == "-" {
        return table;
    }
    for part in word.split(',') {
        add(&mut table, part, line);
    }
    table
}

/// A table with no handles.
#[tactic(auto, using(crate::proofs::TableLemmas::lends))]
fn empty(alloc: Global) -> Table
    ensures { LendsBelow 256 result.handles }
{
    Table::new(alloc)
}

/// Adds the handle that a word spells, as often as it says.
fn add(table: &mut Table, word: &str, line: &mut Line)
    requires { LendsBelow 256 table.old.handles }
    ensures { LendsBelow 256 table.new.handles }
{
    let (times, word) = split_repeat(word);
    let handle = read_handle(word, line);
    for _ in 0..times {
        add_handle(table, handle, line);
    }
}

/// Adds a handle.
#[tactic(auto, using(crate::proofs::TableLemmas::lends))]
fn add_handle(table: &mut Table, handle: Handle, line: &mut Line)
    requires lends { LendsBelow 256 table.old.handles }
    requires few { handle.lends < 256 }
    ensures { LendsBelow 256 table.new.handles }
{
    match table.add(handle) {
        Ok(_) => {}
        Err(HandleFault::Memory) => line.fail(RowFault::Memory),
        Err(_) => line.refuse(),
    }
}

/// The handle that a word spells.
pub fn read_handle(word: &str, line: &mut Line) -> Handle
    ensures { result.lends < 256 }
{
    let (resource, word) = match word.split_once('\'') {
        Some((_, word)) => (1, word),
        None => (0, word),
    };
    let (word, lends) = word.split_once('+').unwrap_or((word, "0"));
    let lends: u8 = line.number(lends);
    let (kind, serial) = match word.split_at_checked(1) {
        Some(("o", serial)) => (HandleKind::Owned, serial),
        Some(("b", serial)) => (HandleKind::Borrowed { call: 7 }, serial),
        _ => (HandleKind::Owned, ""),
    };
    let serial: u32 = line.number(serial);
    Handle {
        resource: ResourceId {
            component: 0,
            number: resource,
        },
        serial: u64::from(serial),
        lends: u128::from(lends),
        rep: serial.wrapping_add(100),
        kind,
    }
}

/// A table as a row shows it.
pub fn shown_table(alloc: Global, table: &Table) -> Line {
    let mut line = Line::new(alloc);
    write_table(&mut line, table);
    line
}

/// Where a call found no memory: the row is none if a table is shown in another way than before, or
/// if what is kept of the call changed.
pub fn look_behind(
    alloc: Global,
    fault: AbiFault,
    before: &Line,
    table: &Table,
    is_as_before: bool,
    line: &mut Line,
) {
    if fault != AbiFault::EngineMemory {
        return;
    }
    let after = shown_table(alloc, table);
    line.keep_fault_of(before);
    line.keep_fault_of(&after);
    if before.as_str() != after.as_str() || !is_as_before {
        line.refuse();
    }
}

/// Writes `; INDEX:HANDLE..`, the handles of the first eight indices as a row spells them.
pub fn write_table(line: &mut Line, table: &Table) {
    let mut mark = " ; ";
    for index in 1..9 {
        for number in 0..2 {
            let resource = ResourceId {
                component: 0,
                number,
            };
            if let Ok(handle) = table.get(index, resource) {
                line.put(mark);
                line.show(index);
                line.put(":");
                write_handle(line, handle);
                mark = " ";
            }
        }
    }
}

fn write_handle(line: &mut Line, handle: Handle) {
    if handle.resource.number == 1 {
        line.put("'");
    }
    line.put(match handle.kind {
        HandleKind::Owned => "o",
        HandleKind::Borrowed { .. } => "b",
    });
    line.show(handle.serial);
    if handle.lends > 0 {
        line.put("+");
        line.show(handle.lends);
    }
}
