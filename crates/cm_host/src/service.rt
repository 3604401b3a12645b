//! What a host does where its functions are called.

ghost use Rattle.std.specs.Prelude.{ℕ, ⊤, Result};
ghost use Rattle.std.specs.declared.alloc.AllocError.{AllocError};
ghost use Rattle.cm_types.specs.Values.{Val, parts};
ghost use Rattle.cm_types.specs.ValueTrees.{values_of};
ghost use Rattle.cm_host.specs.declared.answer.Answer.{Answer};

use crate::answer::Answer;
use crate::fault::ServeFault;
use cm_types::Value;
use std::alloc::AllocError;

/// The functions of a host, in terms of values, each known by a key that the host chose. A handle
/// is its index in the table of the seat, of the type u32; a borrow of a resource of the seat's own
/// is its representation. Where there is no memory for an answer, the function traps.
pub trait Service: Drop {
    /// What the functions may do: by the key and the tuple of the arguments, what they answer and
    /// what the service is then.
    ghost does: { Self → ℕ → Val → Result Answer AllocError → Self → Type 0 } = { λ _ _ _ _ _. ⊤ };

    /// What the function of a key answers to these arguments.
    fn serve(&mut self, key: u32, args: &[Value]) -> Result<Answer, AllocError>
        ensures { does self.old key (parts (values_of args.now)) result self.new };

    /// What the function answers once what it asked came to this number: an index, a
    /// representation, or 0 where a handle was dropped.
    fn go_on(&mut self, key: u32, number: u32) -> Result<Answer, AllocError> {
        let _ = (key, number);
        Ok(Answer::Stop)
    }

    /// Why the function traps: its arguments or its answer could not be passed.
    fn refused(&mut self, key: u32, fault: ServeFault) {
        let _ = (key, fault);
    }
}
