//! Texts and lists that are written into a caller's buffer.

ghost use Rattle.std.specs.Prelude.{◌≡◌, ◌≤◌, ◌++◌, drop, length, take};
ghost use Rattle.huxarte_c_calls.specs.Texts.{IsText, written};

use std::alloc::Global;
use std::fmt;

/// Puts the first items into the front of a buffer.
fn put_front<T: Copy>(room: &mut [T], items: &[T], count: usize)
    requires room { count ≤ length room.old }
    requires items { count ≤ length items.now }
    ensures { room.new ≡ take count items.now ++ drop count room.old }
{
    room[..count].copy_from_slice(&items[..count]);
}

/// Writes items into a buffer, as many of them as there is room for, and answers how many there
/// are. What stands behind them stays.
pub fn write_items<T: Copy>(room: &mut [T], items: &[T]) -> usize
    ensures wanted { result ≡ length items.now }
    ensures written { room.new ≡ written room.old items.now }
{
    let fitting = items.len().min(room.len());
    put_front(room, items, fitting);
    items.len()
}

/// Writes a text into a buffer, as much of it as there is room for, and answers how many bytes it
/// has. What stands behind it stays.
pub fn write_text(room: &mut [u8], text: &[u8]) -> usize
    ensures wanted { result ≡ length text.now }
    ensures written { room.new ≡ written room.old text.now }
    ensures text { IsText room.old result room.new }
{
    write_items(room, text)
}

/// Writes how something is shown into a buffer, as much of it as there is room for, and answers how
/// many bytes that has; none where there is no memory for it. What stands behind it stays.
pub fn write_shown<T: fmt::Display>(alloc: Global, room: &mut [u8], shown: &T) -> usize
    ensures { IsText room.old result room.new }
{
    match format!(in alloc; "{shown}") {
        Ok(text) => write_text(room, text.as_bytes()),
        Err(_) => write_text(room, b""),
    }
}
