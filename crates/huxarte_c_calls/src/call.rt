//! What a call passes, as C says it.

ghost use Rattle.std.specs.Prelude.{◌≡◌, IfErr, IfOk, IfSome, Some};
ghost use Rattle.cm_abi_model.specs.Receives.{call_kinds};
ghost use Rattle.cm_abi_model.specs.Requests.{IsStored};
ghost use Rattle.cm_abi_model.specs.Views.{params};
ghost use Rattle.cm_types.specs.Funcs.{func_of};
ghost use Rattle.huxarte_c_calls.specs.Calls.{HasNoEncoding, IsCall, IsNoCall};
ghost use Rattle.huxarte_c_calls.specs.HandedOver.{encoding_of, stored_encoding_of};
ghost use Rattle.huxarte_c_calls.specs.declared.fault.CallFault.TheVariants as call_fault;

use crate::core_values::core_values;
use crate::fault::CallFault;
use cm_abi::{Encodings, StringEncoding};
use cm_layout::{FlatFunc, Layout, Side, flatten_func, layout_of_params};
use cm_types::{CoreKind, CoreValue, Func};
use std::alloc::{AllocError, Global};

/// The parameters of a call: which function, and how strings are encoded on both sides.
#[repr(C)]
#[derive(Clone, Copy)]
pub struct HuxCall {
    /// The index of the function among those of the component, from 0.
    pub func: u32,
    /// How strings are encoded where the values come from: 0 UTF-8, 1 UTF-16, 2 latin1+utf16.
    pub source: u32,
    /// How they are encoded where the values go: 0 UTF-8, 1 UTF-16.
    pub target: u32,
    /// The place of the component that they go to, from 0: handles of its own resources that are
    /// lent to it are handed over as their representations.
    pub callee: u32,
    /// The number of the call, from which the callee's borrowed handles are counted.
    pub call: u32,
}

/// What passes the parameters of a call.
#[derive(Drop)]
pub struct Call {
    pub(crate) encodings: Encodings,
    pub(crate) layout: Layout,
    pub(crate) kinds: Vec<CoreKind>,
    pub(crate) slots: Vec<CoreValue>,
}

/// The encoding in which strings come.
fn source(number: u32) -> Option<StringEncoding>
    ensures { result ≡ encoding_of number }
{
    match number {
        0 => Some(StringEncoding::Utf8),
        1 => Some(StringEncoding::Utf16),
        2 => Some(StringEncoding::Latin1OrUtf16),
        _ => None,
    }
}

/// The encoding in which they are stored.
fn target(number: u32) -> Option<StringEncoding>
    ensures value { result ≡ stored_encoding_of number }
    ensures stored { IfSome result IsStored }
{
    match number {
        0 => Some(StringEncoding::Utf8),
        1 => Some(StringEncoding::Utf16),
        _ => None,
    }
}

/// The encodings on both sides of a call.
fn encodings(call: &HuxCall) -> Result<Encodings, CallFault>
    ensures source { IfOk result (λ e. encoding_of call.now.source ≡ Some e.source) }
    ensures target { IfOk result (λ e. stored_encoding_of call.now.target ≡ Some e.target) }
    ensures stored { IfOk result (λ e. IsStored e.target) }
    ensures refused { IfErr result (λ r. (r ≡ call_fault.NoEncoding) × HasNoEncoding call.now) }
{
    match (source(call.source), target(call.target)) {
        (Some(source), Some(target)) => Ok(Encodings { source, target }),
        _ => Err(CallFault::NoEncoding),
    }
}

/// The kinds of the core values that pass the parameters of a function.
fn kinds_of(alloc: Global, func: &Func) -> Result<Vec<CoreKind>, AllocError>
    ensures { IfOk result (λ ks. ks.items ≡ call_kinds params (func_of func.now).params) }
{
    let FlatFunc { params, .. } = flatten_func(alloc, func, Side::Lift)?;
    Ok(params)
}

/// The call of a function, whose parameters these core values pass, of 32 bits in the low half.
///
/// `NoEncoding` comes where strings are read or stored in no encoding of such a number, `NoSlots`
/// where there are more or fewer core values than pass the parameters, and `Memory` where there is
/// no memory (CanonicalABI.md, "Flattening").
pub fn call_of_func(
    alloc: Global,
    func: &Func,
    call: &HuxCall,
    slots: &[u64],
) -> Result<Call, CallFault>
    ensures call { IfOk result (IsCall call.now slots.now (func_of func.now).params) }
    ensures refused { IfErr result (IsNoCall call.now slots.now (func_of func.now).params) }
{
    let encodings = encodings(call)?;
    let kinds = kinds_of(alloc, func)?;
    if slots.len() != kinds.len() {
        return Err(CallFault::NoSlots);
    }
    Ok(Call {
        encodings,
        layout: layout_of_params(alloc, func)?,
        slots: core_values(alloc, &kinds, slots)?,
        kinds,
    })
}
