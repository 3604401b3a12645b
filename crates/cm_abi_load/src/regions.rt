//! What a pointer leads to.

ghost use Rattle.std.specs.Prelude.{◌≡◌, ◌+◌, ◌<◌, ◌≤◌, ◌^◌, length, OnOk};
ghost use Rattle.cm_abi_load.specs.Outcomes.{Reads, state_of};
ghost use Rattle.cm_abi_load.specs.Leaves.{region};

use crate::progress::Progress;
use crate::stop::Stop;
use cm_abi_model::AbiFault;

/// A slice of bytes is shorter than 2^63, so an address in it and an offset fit 64 bits together.
pub(crate) fn fits_a_slice(bytes: &[u8])
    ensures { length bytes.now < 2 ^ 63 }
{
    let _length = bytes.len();
}

/// Looks at so many bytes at a pointer, and counts them as content: they are aligned, lie in the
/// memory, and are no more than may still come.
///
/// It stops with `Misaligned` where they are not aligned, else with `PointerBounds` where they pass
/// the end of the memory, else with `TooLarge` where fewer bytes may still come.
#[tactic(auto, unfolding(crate::specs::Leaves::region))]
pub fn check_region(
    memory: &[u8],
    align: u32,
    at: u32,
    size: u64,
    progress: &mut Progress,
) -> Result<(), Stop>
    requires aligned { 0 < align }
    ensures reads { Reads (λ u. tt) result (state_of progress.new)
        (region memory.now align at size (state_of progress.old)) }
    ensures inside { OnOk result (at + size ≤ length memory.now) }
{
    if at % align != 0 {
        return Err(Stop::Fault(AbiFault::Misaligned));
    }
    if u128::from(at) + u128::from(size) > memory.len() as u128 {
        return Err(Stop::Fault(AbiFault::PointerBounds));
    }
    if size > u64::from(progress.left) {
        return Err(Stop::Fault(AbiFault::TooLarge));
    }
    progress.left -= size as u32;
    Ok(())
}
