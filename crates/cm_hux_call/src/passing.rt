//! What is passed in a call of a caller that stands in for a host.

use cm_host_values::{HostTypes, Lowered, ValuesFault, lift_values, lower_values};
use cm_hux_drive::Seat;
use cm_machine_guests::{Bump, MoveQueue, Room, WithAllocator};
use cm_machine_model::{Flat, MAX_MEMORY_SIZE, Move, PAGE_SIZE};
use cm_types::{CoreValue, Func, TypeTree, Value};
use cm_values::{PrintFault, print};
use std::alloc::{AllocError, AllocFailed, Global};

/// Why arguments are not passed.
#[derive(Clone, Copy)]
pub(crate) enum PassFault {
    Values(ValuesFault),
    Memory,
}

impl From<AllocError> for PassFault {
    fn from(_error: AllocError) -> PassFault {
        PassFault::Memory
    }
}

impl<T: Drop> From<AllocFailed<T>> for PassFault {
    fn from(_error: AllocFailed<T>) -> PassFault {
        PassFault::Memory
    }
}

/// A call that can be made: the guest of a caller that makes it, and what it is to get.
#[derive(Drop)]
pub(crate) struct Passed {
    pub(crate) guest: Seat,
    pub(crate) results: Results,
}

/// The results of a call: their types, and where they go, where they are passed in memory.
#[derive(Drop)]
pub(crate) struct Results {
    types: HostTypes,
    place: Option<u32>,
}

/// What a call answered.
#[derive(Drop)]
pub(crate) enum Answered {
    Nothing,
    /// A value as a text.
    Value(String),
    /// What is there is no value of the type, or has handles.
    Fault(String),
}

/// A whole memory, to be given out.
const ALL_ROOM: Bump = Bump {
    next: 0,
    end: MAX_MEMORY_SIZE as u32,
};

impl Passed {
    /// The guest that calls a core function, which lowers a function of this type, with these
    /// arguments, in a memory that has no pages yet.
    pub(crate) fn new(
        alloc: Global,
        core_func: u32,
        func: &Func,
        args: &[Value],
    ) -> Result<Passed, PassFault> {
        let mut regions = ALL_ROOM;
        let lowered = lower_params(alloc, func, args, &mut regions)?;
        let results = Results::of(alloc, func, &mut regions)?;
        let guest = guest_of(alloc, core_func, lowered, results.place, regions)?;
        Ok(Passed { guest, results })
    }
}

/// The arguments of a function of this type, as its caller passes them.
fn lower_params(
    alloc: Global,
    func: &Func,
    args: &[Value],
    regions: &mut Bump,
) -> Result<Lowered, PassFault> {
    let params = HostTypes::of_params(alloc, func)?;
    match lower_values(alloc, &params, args, regions) {
        Ok(lowered) => Ok(lowered),
        Err(fault) => Err(PassFault::Values(fault)),
    }
}

/// The guest that calls a core function with what was lowered, and with the place of the results.
fn guest_of(
    alloc: Global,
    core_func: u32,
    lowered: Lowered,
    place: Option<u32>,
    regions: Bump,
) -> Result<Seat, AllocError> {
    let Lowered { mut slots, bytes } = lowered;
    if let Some(at) = place {
        slots.push(CoreValue::I32(at))?;
    }
    let queue = queue_of(alloc, core_func, slots, bytes, regions.next)?;
    Ok(Seat::Allocating(WithAllocator::new(alloc, regions, queue)))
}

/// A place for the results, where they are passed in memory.
fn results_place(
    alloc: Global,
    results: &HostTypes,
    regions: &mut Bump,
) -> Result<Option<u32>, PassFault> {
    let head = results.layout(alloc)?.head;
    if head.width as usize <= results.way().flat_limit() {
        return Ok(None);
    }
    match regions.allocate(head.size, head.align, MAX_MEMORY_SIZE) {
        Room::At(at) => Ok(Some(at)),
        Room::Grow(_) | Room::Full => Err(PassFault::Values(ValuesFault::NoRoom)),
    }
}

impl Results {
    /// The results of a function of this type, with a place for them.
    fn of(alloc: Global, func: &Func, regions: &mut Bump) -> Result<Results, PassFault> {
        let types = HostTypes::of_result(alloc, func)?;
        let place = results_place(alloc, &types, regions)?;
        Ok(Results { types, place })
    }

    /// What a function of this type answered, where this is the memory of the caller, which went on
    /// with these core values.
    pub(crate) fn answered(
        &self,
        alloc: Global,
        func: &Func,
        memory: &[u8],
        resumed: &Flat,
    ) -> Result<Answered, AllocError> {
        let place = self.place.map(|at| Flat::one(CoreValue::I32(at)));
        let slots = match &place {
            Some(place) => place.as_slice(),
            None => resumed.as_slice(),
        };
        let values = match lift_values(alloc, memory, &self.types, slots) {
            Ok(values) => values,
            Err(fault) => return Ok(Answered::Fault(format!(in alloc; "no result: {fault}")?)),
        };
        match (values.as_slice(), &func.result) {
            ([value], Some(ty)) => printed(alloc, value, ty),
            _ => Ok(Answered::Nothing),
        }
    }
}

/// A value of a type as a text.
fn printed(alloc: Global, value: &Value, ty: &TypeTree) -> Result<Answered, AllocError> {
    match print(alloc, value, ty) {
        Ok(text) => Ok(Answered::Value(text)),
        Err(PrintFault::Memory) => Err(AllocError),
        Err(PrintFault::WrongType) => Ok(Answered::Fault(format!(in alloc;
            "a result with handles, which nobody can take"
        )?)),
    }
}

/// The moves of a caller: its memory grows up to an end, these bytes are written at its beginning,
/// the core function is called, and the caller returns.
fn queue_of(
    alloc: Global,
    func: u32,
    args: Vec<CoreValue>,
    bytes: Vec<u8>,
    end: u32,
) -> Result<MoveQueue, AllocError> {
    let mut queue = MoveQueue::new(alloc);
    let pages = end.div_ceil(PAGE_SIZE as u32);
    if pages > 0 {
        queue.push(Move::Grow { pages })?;
    }
    if !bytes.is_empty() {
        queue.push(Move::Write { at: 0, bytes })?;
    }
    queue.push(Move::Call { func, args })?;
    queue.push(Move::ret(alloc, &[])?)?;
    Ok(queue)
}
