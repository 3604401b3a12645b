//! The values that core values denote in the view of an instance.

use cm_abi_model::{AbiFault, StringEncoding};
use cm_host_values::{HostTypes, lift_values_in};
use cm_types::{CoreValue, Func, Value};
use std::alloc::{AllocError, Global};

/// How a function passes values, each handle as an index: its arguments, and its result.
#[derive(Drop)]
pub(crate) struct Passes {
    pub(crate) params: HostTypes,
    pub(crate) results: HostTypes,
}

impl Passes {
    /// How a function of this type passes values.
    pub(crate) fn of(alloc: Global, func: &Func) -> Result<Passes, AllocError> {
        Ok(Passes {
            params: HostTypes::of_params(alloc, func)?,
            results: HostTypes::of_result(alloc, func)?,
        })
    }
}

/// The values that core values denote in a memory whose strings have this encoding; `None` where
/// they denote none. `AllocError` comes where there is no memory for them.
pub(crate) fn lifted(
    alloc: Global,
    memory: &[u8],
    types: &HostTypes,
    encoding: StringEncoding,
    slots: &[CoreValue],
) -> Result<Option<Vec<Value>>, AllocError> {
    match lift_values_in(alloc, memory, types, encoding, slots) {
        Ok(values) => Ok(Some(values)),
        Err(AbiFault::EngineMemory) => Err(AllocError),
        Err(_) => Ok(None),
    }
}
