//! Where what a value holds begins.

ghost use Rattle.std.specs.Prelude.{◌≡◌, ◌+◌, ◌*◌, IfOk};

use std::alloc::AllocError;

/// A place behind another. `AllocError` comes where it would take more than 32 bits, which none of
/// a layout does.
pub fn place_behind(by: u32, at: u32) -> Result<u32, AllocError>
    ensures { IfOk result (λ n. n ≡ by + at) }
{
    by.checked_add(at).ok_or(AllocError)
}

/// How far so many values reach, so far one behind the other. `AllocError` comes where that would
/// take more than 32 bits, which it does in no layout.
pub fn row_length(count: u32, distance: u32) -> Result<u32, AllocError>
    ensures { IfOk result (λ n. n ≡ count * distance) }
{
    count.checked_mul(distance).ok_or(AllocError)
}
