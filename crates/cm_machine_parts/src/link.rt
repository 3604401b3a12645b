//! What a lowered function comes to.

use cm_abi_model::StringEncoding;
use cm_abi_programs::{CallPuts, Check};
use cm_abi_slots::SlotStep;
use cm_layout::Layout;
use cm_types::CoreKind;
use std::sync::Arc;

/// The types of values that are passed one way, with each resource what it is in the end.
#[derive(Drop)]
pub struct PassedTypes {
    /// The layout of the tuple of their types (CanonicalABI.md, "Flattening").
    pub layout: Layout,
    /// The kinds of the core values that pass them: those that a lifted function takes, or gives.
    /// A lowered one takes one more, a pointer, where a result goes by memory, and gives none then.
    pub kinds: Vec<CoreKind>,
    /// What each of these core values becomes, where they are numbers alone, which pass at once.
    pub steps: Option<Vec<SlotStep>>,
    /// What has to be looked at in the values, where they are given.
    pub checks: Vec<Check>,
    /// What has to be written of the values, where they are received.
    pub puts: CallPuts,
}

/// What a function passes.
#[derive(Drop)]
pub struct CallTypes {
    pub params: PassedTypes,
    pub results: PassedTypes,
    /// Whether the result goes by memory: a lowered function then takes a pointer behind its
    /// arguments, to where the result is to stand.
    pub has_pointer: bool,
}

/// How one side of a call passes values (CanonicalABI.md, "Canonical ABI Options",
/// `LiftLowerOptions`). Its memory is the one that its instance has.
#[derive(Clone, Copy)]
pub struct LiftLowerOptions {
    /// How its strings are encoded.
    pub encoding: StringEncoding,
    /// The core function of its instance that allocates, by its index, if one is named.
    pub realloc: Option<u32>,
}

/// A lowered function and the lifted one that it comes to (CanonicalABI.md, `canon lift` and
/// `canon lower`). Instances and core functions count from 0.
#[derive(Drop)]
pub struct Link {
    /// The instance that is called, by its place in the set.
    pub instance: u32,
    /// The core function of that instance that is lifted, by its index.
    pub func: u32,
    /// The core function of that instance that tidies up once a result was read, if one is named.
    pub post_return: Option<u32>,
    /// How the instance that calls passes values.
    pub caller: LiftLowerOptions,
    /// How the one that is called does.
    pub callee: LiftLowerOptions,
    /// What is passed: the same on both sides.
    pub types: Arc<CallTypes>,
}
