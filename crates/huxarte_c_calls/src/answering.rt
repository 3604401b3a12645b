//! Answers of an allocator.

ghost use Rattle.std.specs.Prelude.{◌≡◌, ◌<◌, ◌+◌, [], IfErr, None, OnOk, length, take};
ghost use Rattle.cm_abi_model.specs.Answering.{first_fault};
ghost use Rattle.cm_abi_model.specs.Answered.{IsAllAnswered, IsAnswered, all_requests};
ghost use Rattle.cm_abi_model.specs.Scanned.{OnlyAsked};
ghost use Rattle.huxarte_c_calls.specs.Copying.{AreBadAnswers};

use crate::fault::CallFault;
use cm_abi::Scan;
use cm_abi_model::laws::what_goes_on_stays;
use cm_abi_requests::requesting_laws::answers_stay_fine;

/// Gives the answer of this number, in a memory of so many bytes; those before it are given.
fn answer_next(
    kept: &mut Scan,
    answers: &[u32],
    number: usize,
    memory_length: usize,
) -> Result<(), CallFault>
    requires number { number < length answers.now }
    requires given { IsAnswered kept.old.parts (take number answers.now) }
    requires fine { first_fault memory_length (all_requests kept.old.parts)
        (take number answers.now) ≡ None }
    ensures given { OnOk result (IsAnswered kept.new.parts (take (number + 1) answers.now)) }
    ensures fine { OnOk result (first_fault memory_length (all_requests kept.new.parts)
        (take (number + 1) answers.now) ≡ None) }
    ensures refused { IfErr result
        (AreBadAnswers memory_length (all_requests kept.old.parts) answers.now) }
    ensures only { OnlyAsked kept.old kept.new }
{
    answers_stay_fine();
    what_goes_on_stays();
    if kept.next_request().is_none() {
        return Err(CallFault::Answers(answers.len()));
    }
    match kept.answer(answers[number], memory_length) {
        Ok(()) => Ok(()),
        Err(fault) => Err(CallFault::Answer { number, fault }),
    }
}

/// Gives these answers to the requests for what was scanned, one for one, in a memory of so many
/// bytes.
///
/// `Answer` comes with the first that is not aligned, or at which what was asked for passes the end
/// of the memory; `Answers` where there are more or fewer than requests.
pub(crate) fn answer_all(
    kept: &mut Scan,
    answers: &[u32],
    memory_length: usize,
) -> Result<(), CallFault>
    requires { IsAnswered kept.old.parts [] }
    ensures answered { OnOk result (IsAllAnswered kept.new.parts answers.now) }
    ensures fine { OnOk result
        (first_fault memory_length (all_requests kept.old.parts) answers.now ≡ None) }
    ensures refused { IfErr result
        (AreBadAnswers memory_length (all_requests kept.old.parts) answers.now) }
    ensures only { OnlyAsked kept.old kept.new }
{
    what_goes_on_stays();
    for number in 0..answers.len() {
        answer_next(kept, answers, number, memory_length)?;
    }
    match kept.next_request() {
        None => Ok(()),
        Some(_) => Err(CallFault::Answers(answers.len())),
    }
}
