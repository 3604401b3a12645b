//! Rows on a handle table, each of which acts on what the earlier ones left.

ghost use Rattle.std.specs.Prelude.{◌^◌, ◌<◌, IsTrue};
ghost use Rattle.std.specs.Option.{ForSome};
ghost use Rattle.cm_handles.specs.Handles.{handle_at};

use cm_handles::{Handle, HandleFault, HandleKind, Table};
use cm_rows::{Line, read_resource, word, words_from};
use cm_types::ResourceId;
use std::alloc::Global;

/// The two resources that a table of rows holds handles of.
const RESOURCES: [ResourceId; 2] = [
    ResourceId {
        component: 0,
        number: 0,
    },
    ResourceId {
        component: 2,
        number: 1,
    },
];

/// The table that the rows speak of.
#[derive(Drop)]
pub struct Handles {
    table: Table,
}

impl Handles {
    /// An empty table.
    pub fn new(alloc: Global) -> Handles {
        Handles {
            table: Table::new(alloc),
        }
    }

    /// The answer to `new`, `close`, `faults`, `fill COUNT HANDLE`, `add HANDLE`, `reserve COUNT`,
    /// `restore INDEX INDEX RESOURCE`, or a call by its name, whose words are those of its
    /// arguments.
    pub fn answer(&mut self, alloc: Global, words: &[&str], line: &mut Line) {
        let first = word(words, 1);
        match word(words, 0) {
            "new" => {
                self.table = Table::new(alloc);
                line.put("empty");
            }
            "close" => {
                self.table.close();
                line.put("closed");
            }
            "faults" => write_faults(line),
            "add" => {
                let handle = read_handle(words_from(words, 1), line);
                if line.is_fine() {
                    write_index(line, self.table.add(handle));
                }
            }
            "fill" => {
                let handle = read_handle(words_from(words, 2), line);
                self.fill(line.number(first), handle, line);
            }
            "reserve" => match self.table.reserve(line.number(first)) {
                Ok(()) => line.put("done"),
                Err(fault) => write_refusal(line, fault),
            },
            "restore" => {
                let resource = read_resource(word(words, 3), line);
                self.restore(
                    line.number(first),
                    line.number(word(words, 2)),
                    resource,
                    line,
                );
            }
            call => {
                let resource = read_resource(word(words, 2), line);
                self.call(call, line.number(first), resource, line);
            }
        }
    }

    /// A call that takes the index of a handle and its resource.
    fn call(&mut self, call: &str, index: u32, resource: ResourceId, line: &mut Line) {
        if !line.is_fine() {
            return;
        }
        let outcome = match call {
            "get" => self.table.get(index, resource),
            "drop_handle" => self.table.drop_handle(index, resource),
            "take_own" => self.table.take_own(index, resource),
            "lend" if may_lend(&self.table, index) => self.table.lend(index, resource),
            "unlend" => match self.table.get(index, resource) {
                Ok(handle) if handle.lends > 0 => {
                    self.table.unlend(index);
                    self.table.get(index, resource)
                }
                _ => return line.refuse(),
            },
            _ => return line.refuse(),
        };
        write_handle(line, outcome);
    }

    /// Adds a handle. Where there is no memory for it, the table is as it was, and it is added
    /// again.
    fn add_again(&mut self, handle: Handle) -> Result<u32, HandleFault> {
        match self.table.add(handle) {
            Err(HandleFault::Memory) => self.table.add(handle),
            added => added,
        }
    }

    /// Adds so many handles, of which each is to stand at the index after that of the one before
    /// it.
    fn fill(&mut self, count: u32, handle: Handle, line: &mut Line) {
        let mut last = 0u32;
        if !line.is_fine() {
            return;
        }
        for _ in 0..count {
            let rep = last.saturating_add(1);
            match self.add_again(Handle { rep, ..handle }) {
                Ok(index) if index == rep => last = rep,
                other => return write_index(line, other),
            }
        }
        line.put("up to ");
        line.show(last);
    }

    /// Takes two handles, says what stands at their indices then, and puts them back, the last one
    /// first.
    fn restore(&mut self, first: u32, second: u32, resource: ResourceId, line: &mut Line) {
        let Ok(first_handle) = self.table.take_own(first, resource) else {
            return line.refuse();
        };
        let Ok(second_handle) = self.table.take_own(second, resource) else {
            return line.refuse();
        };
        write_handle(line, self.table.get(first, resource));
        line.put(", ");
        write_handle(line, self.table.get(second, resource));
        self.table.restore(second, second_handle);
        self.table.restore(first, first_handle);
        line.put(", then ");
        write_handle(line, self.table.get(first, resource));
        line.put(", ");
        write_handle(line, self.table.get(second, resource));
    }
}

/// Whether the handle at an index, if one is there, may be lent once more.
fn may_lend(table: &Table, index: u32) -> bool
    ensures { IsTrue result →
        ForSome (handle_at table.now.handles index) (λ handle. handle.lends < 2 ^ 101) }
{
    match table.get(index, RESOURCES[0]) {
        Ok(handle) => handle.lends < 1 << 101,
        Err(HandleFault::NoHandle) => true,
        Err(_) => match table.get(index, RESOURCES[1]) {
            Ok(handle) => handle.lends < 1 << 101,
            Err(_) => false,
        },
    }
}

fn write_faults(line: &mut Line) {
    for fault in [
        HandleFault::NoHandle,
        HandleFault::WrongResource,
        HandleFault::StillLent,
        HandleFault::NotOwned,
        HandleFault::Full,
        HandleFault::Memory,
    ] {
        line.number_of_debug(&fault, fault.number());
    }
}

/// A handle that is lent to no one: `owned RESOURCE SERIAL REP` or `borrowed RESOURCE SERIAL REP
/// CALL`.
fn read_handle(words: &[&str], line: &mut Line) -> Handle {
    let kind = match word(words, 0) {
        "owned" => HandleKind::Owned,
        "borrowed" => HandleKind::Borrowed {
            call: line.number(word(words, 4)),
        },
        _ => {
            line.refuse();
            HandleKind::Owned
        }
    };
    Handle {
        resource: read_resource(word(words, 1), line),
        serial: line.number(word(words, 2)),
        lends: 0,
        rep: line.number(word(words, 3)),
        kind,
    }
}

fn write_index(line: &mut Line, outcome: Result<u32, HandleFault>) {
    match outcome {
        Ok(index) => {
            line.put("at ");
            line.show(index);
        }
        Err(fault) => write_refusal(line, fault),
    }
}

/// Writes a fault; want of memory is that of the row.
fn write_refusal(line: &mut Line, fault: HandleFault) {
    line.fail_if_memory(fault == HandleFault::Memory);
    line.fault(&fault);
}

/// Writes a handle as `read_handle` reads it, and how often it is lent; or the fault.
fn write_handle(line: &mut Line, outcome: Result<Handle, HandleFault>) {
    match outcome {
        Ok(handle) => write_held(line, handle),
        Err(fault) => line.fault(&fault),
    }
}

fn write_held(line: &mut Line, handle: Handle) {
    line.put(match handle.kind {
        HandleKind::Owned => "owned ",
        HandleKind::Borrowed { .. } => "borrowed ",
    });
    line.show(handle.resource.component);
    line.put(".");
    line.show(handle.resource.number);
    line.put(" ");
    line.show(handle.serial);
    line.put(" ");
    line.show(handle.rep);
    if let HandleKind::Borrowed { call } = handle.kind {
        line.put(" ");
        line.show(call);
    }
    line.put(" lent ");
    line.show(handle.lends);
}
