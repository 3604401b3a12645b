//! Whether the answers to requests will do.

ghost use Rattle.std.specs.Prelude.{◌≡◌, ◌+◌, ◌<◌, IfErr, IfOk, OnOk, Some};
ghost use Rattle.std.specs.Prelude.{None, drop, length, map};
ghost use Rattle.cm_abi_model.specs.Answering.{AreAligned, IsFaultOfAnswers, answer_fault};
ghost use Rattle.cm_abi_model.specs.Answering.{begins_part, first_fault, places_of, regions_of};
ghost use Rattle.cm_abi_model.specs.Overlap.{AreDisjoint};

use crate::regions::are_disjoint;
use cm_abi_model::{AbiFault, Region, Request};
use std::alloc::{AllocError, Global};

/// Looks at one answer: it is aligned, else `Misaligned`, and what was asked for lies in a memory
/// of so many bytes, else `PointerBounds`.
pub fn check_answer(request: Request, at: u32, memory_length: usize) -> Result<(), AbiFault>
    requires aligned { 0 < request.align }
    ensures ok { OnOk result (answer_fault memory_length request at ≡ None) }
    ensures err { IfErr result (λ e. answer_fault memory_length request at ≡ Some e) }
{
    if at % request.align != 0 {
        return Err(AbiFault::Misaligned);
    }
    if u128::from(at) + u128::from(request.size) > memory_length as u128 {
        return Err(AbiFault::PointerBounds);
    }
    Ok(())
}

/// Looks at each of the answers, in order, up to the first that will not do.
fn check_each(requests: &[Request], answers: &[u32], memory_length: usize) -> Result<(), AbiFault>
    requires aligned { AreAligned requests.now }
    requires answered { length answers.now ≡ length requests.now }
    ensures ok { OnOk result (first_fault memory_length requests.now answers.now ≡ None) }
    ensures err { IfErr result (λ e.
        first_fault memory_length requests.now answers.now ≡ Some e) }
{
    for (i, request) in requests.iter().enumerate() {
        check_answer(*request, answers[i], memory_length)?;
    }
    Ok(())
}

/// Whether a request is the last one for its part.
fn is_last(requests: &[Request], i: usize) -> bool
    requires { i < length requests.now }
    ensures { result ≡ begins_part (drop (i + 1) requests.now) }
{
    match requests.get(i + 1) {
        Some(next) => !next.chained,
        None => true,
    }
}

/// The regions of the parts, in order.
fn part_regions(
    alloc: Global,
    requests: &[Request],
    answers: &[u32],
) -> Result<Vec<Region>, AllocError>
    requires answered { length answers.now ≡ length requests.now }
    ensures { IfOk result (λ rs. rs.items ≡ regions_of requests.now answers.now) }
{
    let mut regions = Vec::new(alloc);
    for (i, request) in requests.iter().enumerate() {
        if is_last(requests, i) {
            regions.push(Region {
                at: answers[i],
                size: request.size,
            })?;
        }
    }
    Ok(regions)
}

/// Where regions begin, in order.
fn places(alloc: Global, regions: &[Region]) -> Result<Vec<u32>, AllocError>
    ensures { IfOk result (λ ps. ps.items ≡ map (λ (r : Region). r.at) regions.now) }
{
    regions.iter().map(|region| region.at).collect(alloc)
}

/// Looks at the answers to requests, in a memory of so many bytes. Where they will do, the answer
/// is where the parts stand, in order: at the answers to the last requests for them.
///
/// The first answer that is not aligned is `Misaligned`, and the first that passes the end of the
/// memory `PointerBounds`, whichever comes first in order; of one that is both, `Misaligned`. Where
/// there is none, an address that lies in the regions of two parts is `Overlap`; a part of no bytes
/// has no region. `EngineMemory` comes where there is no memory for the answer.
pub fn check_answers(
    alloc: Global,
    requests: &[Request],
    answers: &[u32],
    memory_length: usize,
) -> Result<Vec<u32>, AbiFault>
    requires aligned { AreAligned requests.now }
    requires answered { length answers.now ≡ length requests.now }
    ensures places { IfOk result (λ ps. ps.items ≡ places_of requests.now answers.now) }
    ensures each { OnOk result (first_fault memory_length requests.now answers.now ≡ None) }
    ensures apart { OnOk result (AreDisjoint (regions_of requests.now answers.now)) }
    ensures err { IfErr result (IsFaultOfAnswers memory_length requests.now answers.now) }
{
    check_each(requests, answers, memory_length)?;
    let Ok(mut regions) = part_regions(alloc, requests, answers) else {
        return Err(AbiFault::EngineMemory);
    };
    let Ok(places) = places(alloc, &regions) else {
        return Err(AbiFault::EngineMemory);
    };
    if !are_disjoint(&mut regions) {
        return Err(AbiFault::Overlap);
    }
    Ok(places)
}
