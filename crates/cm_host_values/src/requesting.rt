//! The answers to what lowering asks for.

ghost use Rattle.std.specs.Prelude.{◌≡◌, ◌⊎◌, IfErr, IfOk, OnErr};
ghost use Rattle.cm_machine_guests.specs.Regions.{HasRoom, IsGiven};
ghost use Rattle.cm_host_values.specs.Answers.{AreAnswers, HasNoRoom};

use crate::fault::ValuesFault;
use cm_abi::Request;
use cm_machine_guests::{Bump, Room};
use std::alloc::Global;

/// The answer of an allocator to a request, in a memory that has room for its range.
fn answer(request: &Request, regions: &mut Bump) -> Result<u32, ValuesFault>
    ensures ok { IfOk result (λ at.
        IsGiven regions.old request.now.size request.now.align at regions.new) }
    ensures err { IfErr result (λ e. (e ≡ ValuesFault.NoRoom)
        × (HasRoom regions.old request.now.size request.now.align → ⊥)) }
    ensures stays { OnErr result (regions.new ≡ regions.old) }
{
    let all = regions.end as usize;
    match regions.allocate(request.size, request.align, all) {
        Room::At(at) => Ok(at),
        Room::Grow(_) | Room::Full => Err(ValuesFault::NoRoom),
    }
}

/// The answers of an allocator to requests, in a memory that has room for its range.
pub(crate) fn answers(
    alloc: Global,
    requests: &[Request],
    regions: &mut Bump,
) -> Result<Vec<u32>, ValuesFault>
    ensures ok { IfOk result (λ v. AreAnswers regions.old requests.now v.items regions.new) }
    ensures err { IfErr result (λ e. (e ≡ ValuesFault.Memory)
        ⊎ ((e ≡ ValuesFault.NoRoom) × HasNoRoom regions.old requests.now)) }
{
    let mut answers = Vec::new(alloc);
    for request in requests {
        let at = answer(request, regions)?;
        let Ok(()) = answers.push(at) else {
            return Err(ValuesFault::Memory);
        };
    }
    Ok(answers)
}
