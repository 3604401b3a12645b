//! Rows on giving handles: `give TABLE INSTANCE HANDLE..`.
//!
//! INSTANCE is the place of the receiver's instance, which implements the resources of a component
//! of that place, and the call has number 9. A handle is spelled as one of a table, where an owned
//! one is to be owned and another to be borrowed.

use crate::passing::write_fault;
use crate::tables::{read_handle, read_table, write_table};
use cm_abi_lower::give;
use cm_abi_model::{AbiFault, HandleLeaf, HandleValue, Receiver};
use cm_handles::{Handle, HandleKind, Table};
use cm_rows::{Line, word, words_from};
use std::alloc::Global;

/// The receiver with the instance that a word says.
pub fn read_receiver(instance: &str, line: &mut Line) -> Receiver {
    Receiver {
        instance: line.number(instance),
        call: 9,
    }
}

/// Writes the numbers that stand for the handles, and the table then.
pub fn answer(alloc: Global, words: &[&str], line: &mut Line) {
    let mut table = read_table(alloc, word(words, 0), line);
    let to = read_receiver(word(words, 1), line);
    let mut leaves = Vec::new(alloc);
    for word in words_from(words, 2) {
        let handle = read_handle(word, line);
        line.push(&mut leaves, leaf_of(handle));
    }
    let mut numbers = Vec::new(alloc);
    match give(&mut table, to, &leaves, &mut numbers) {
        Ok(()) => write_given(line, Ok(numbers), &table),
        Err(fault) => write_given(line, Err(fault), &table),
    }
}

fn leaf_of(handle: Handle) -> HandleLeaf {
    let value = HandleValue {
        serial: handle.serial,
        rep: handle.rep,
        resource: handle.resource,
    };
    match handle.kind {
        HandleKind::Owned => HandleLeaf::Owned(value),
        HandleKind::Borrowed { .. } => HandleLeaf::Borrowed(value),
    }
}

/// Writes the numbers, or the fault, and the table.
pub fn write_given(line: &mut Line, given: Result<Vec<u32>, AbiFault>, table: &Table) {
    match given {
        Ok(numbers) => {
            line.put("numbers");
            for number in &numbers {
                line.put(" ");
                line.show(*number);
            }
        }
        Err(fault) => write_fault(line, fault),
    }
    write_table(line, table);
}
