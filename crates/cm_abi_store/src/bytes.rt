//! Bytes in memory.

ghost use Rattle.std.specs.Prelude.{◌≡◌, ◌+◌, ◌≤◌, length};
ghost use Rattle.cm_abi_model.specs.Stores.{bytes_of, placed, pointer_bytes, poke};

use byteorder::{ByteOrder, LittleEndian};

/// Writes bytes at an address, in bytes from 0, where they lie inside the memory; no other byte
/// of it changes (CanonicalABI.md, "Storing").
pub fn write_bytes(memory: &mut [u8], at: usize, bytes: &[u8])
    requires inside { at + length bytes.now ≤ length memory.old }
    ensures stored { memory.new ≡ poke (placed at bytes.now) memory.old }
    ensures stays { length memory.new ≡ length memory.old }
{
    memory[at..at + bytes.len()].copy_from_slice(bytes);
}

/// Writes the lowest bytes of a number, so many, at an address, in bytes from 0: the standard's
/// `store_int`, little end first (CanonicalABI.md, "Storing"). They lie inside the memory, and no
/// other byte of it changes.
pub fn write_number(memory: &mut [u8], at: usize, size: u32, number: u64)
    requires inside { at + size ≤ length memory.old }
    ensures stored { memory.new ≡ poke (placed at (bytes_of size number)) memory.old }
    ensures stays { length memory.new ≡ length memory.old }
{
    match size {
        2 => LittleEndian::write_u16(&mut memory[at..at + 2], (number % 0x1_0000) as u16),
        4 => LittleEndian::write_u32(&mut memory[at..at + 4], (number % 0x1_0000_0000) as u32),
        8 => LittleEndian::write_u64(&mut memory[at..at + 8], number),
        _ => write_each_byte(memory, at, size, number),
    }
}

/// Writes the lowest bytes of a number, so many, one after another.
fn write_each_byte(memory: &mut [u8], at: usize, size: u32, number: u64)
    requires inside { at + size ≤ length memory.old }
    ensures stored { memory.new ≡ poke (placed at (bytes_of size number)) memory.old }
    ensures stays { length memory.new ≡ length memory.old }
{
    let mut rest = number;
    for i in 0..size {
        memory[at + i as usize] = (rest % 0x100) as u8;
        rest /= 0x100;
    }
}

/// Writes a pointer and a length.
pub(crate) fn write_pointer(memory: &mut [u8], at: usize, pointer: u32, count: usize)
    requires inside { at + 8 ≤ length memory.old }
    ensures stored { memory.new ≡ poke (pointer_bytes at pointer count) memory.old }
    ensures stays { length memory.new ≡ length memory.old }
{
    write_number(memory, at, 4, u64::from(pointer));
    write_number(memory, at + 4, 4, count as u64);
}
