//! Sweeps of damaged files: each cut of a file, and each byte of it with one bit changed.

use crate::outcomes::write_reason;
use cm_binary::{DecodeFault, DecodeReason, decode};
use cm_rows::Line;
use cm_shims::{ShimFault, read};
use std::alloc::Global;

/// The bits that are changed, one at a time.
const MASKS: [u8; 3] = [0x01, 0x10, 0x80];

/// What a sweep has met: so many files, so many of them components, and checksums of what `read`
/// and `decode` answer, a line for each file.
#[derive(Clone, Copy)]
struct Swept {
    files: u32,
    components: u32,
    read: u32,
    decoded: u32,
}

impl Swept {
    /// Adds the answers to one more file.
    fn add(&mut self, alloc: Global, file: &[u8], line: &mut Line) {
        let read = read_line(alloc, file);
        let decoded = decoded_line(alloc, file);
        line.keep_fault_of(&read);
        line.keep_fault_of(&decoded);
        self.files = self.files.wrapping_add(1);
        if read.as_str() == "component" {
            self.components = self.components.wrapping_add(1);
        }
        self.read = checksum(self.read, read.as_str());
        self.decoded = checksum(self.decoded, decoded.as_str());
    }
}

/// Writes what `read` and `decode` answer to the beginnings of a file, and to the file with one bit
/// changed.
pub fn write_swept(alloc: Global, file: &[u8], line: &mut Line) {
    let mut swept = Swept {
        files: 0,
        components: 0,
        read: 0x811C_9DC5,
        decoded: 0x811C_9DC5,
    };
    for size in 0..file.len() {
        swept.add(alloc, file.split_at(size).0, line);
    }
    for mask in MASKS {
        sweep_changes(alloc, &mut swept, mask, file, line);
    }
    line.show(swept.files);
    line.put(" files, ");
    line.show(swept.components);
    line.put(" components, ");
    line.show(swept.read);
    line.put(" read, ");
    line.show(swept.decoded);
    line.put(" decoded");
}

/// Changes one byte after another by these bits.
fn sweep_changes(alloc: Global, swept: &mut Swept, mask: u8, file: &[u8], line: &mut Line) {
    let Some(mut changed) = line.kept(Vec::from_slice(alloc, file)) else {
        return;
    };
    for (at, byte) in file.iter().enumerate() {
        change(&mut changed, at, *byte ^ mask);
        swept.add(alloc, &changed, line);
        change(&mut changed, at, *byte);
    }
}

fn change(file: &mut [u8], at: usize, byte: u8) {
    if let Some(there) = file.get_mut(at) {
        *there = byte;
    }
}

/// A checksum that goes on with a line: FNV-1a of 32 bits.
fn checksum(before: u32, line: &str) -> u32 {
    let mut sum = before;
    for byte in line.as_bytes() {
        sum = (sum ^ u32::from(*byte)).wrapping_mul(0x0100_0193);
    }
    (sum ^ u32::from(b'\n')).wrapping_mul(0x0100_0193)
}

/// `component`, or the first fault, of a file that may have shims.
fn read_line(alloc: Global, file: &[u8]) -> Line {
    let mut line = Line::new(alloc);
    match read(alloc, file) {
        Ok(_) => line.put("component"),
        Err(ShimFault::Decode(fault)) => put_fault(&fault, &mut line),
        Err(ShimFault::Limit(fault)) => line.fault(&fault),
        Err(ShimFault::Plain(fault)) => {
            line.fault(&fault.reason);
            line.put(" in section ");
            line.show(fault.section);
            line.put(", item ");
            line.show(fault.item);
        }
    }
    line
}

/// The line of a file without shims.
fn decoded_line(alloc: Global, file: &[u8]) -> Line {
    let mut line = Line::new(alloc);
    match decode(alloc, file) {
        Ok(_) => line.put("component"),
        Err(fault) => put_fault(&fault, &mut line),
    }
    line
}

fn put_fault(fault: &DecodeFault, line: &mut Line) {
    line.fail_if_memory(fault.reason == DecodeReason::Memory);
    line.put("fault ");
    write_reason(line, fault.reason);
    line.put(" at ");
    line.show(fault.at);
}
