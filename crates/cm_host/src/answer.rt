//! What a service answers.

use cm_types::Value;
use std::alloc::{AllocError, Global};

/// What a service answers.
#[derive(Drop)]
pub enum Answer {
    /// The results of the function: one value where it has a result, else none.
    Values(Vec<Value>),
    /// A call of one of the core functions that make, tell and drop handles (`ResourceFuncs`), with
    /// a representation or an index. The service goes on with what that answers.
    Ask { func: u32, number: u32 },
    /// The function traps.
    Stop,
}

impl Answer {
    /// One value as the result. `AllocError` where there is no memory for the list.
    pub fn one(alloc: Global, value: Value) -> Result<Answer, AllocError> {
        Ok(Answer::Values(vec![in alloc; value]?))
    }

    /// A call of a core function that makes, tells or drops handles; the function traps where the
    /// number is none of 32 bits.
    pub fn ask(func: u32, number: u64) -> Answer {
        match u32::try_from(number) {
            Ok(number) => Answer::Ask { func, number },
            Err(_) => Answer::Stop,
        }
    }

    /// No value.
    pub fn none(alloc: Global) -> Answer {
        Answer::Values(Vec::new(alloc))
    }
}
