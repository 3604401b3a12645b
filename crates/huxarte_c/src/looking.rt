//! What a set is seen to be.

ghost use Rattle.std.specs.Prelude.{◌≡◌, length};
ghost use Rattle.std.specs.Option.{option_copied, option_map};
ghost use Rattle.huxarte_c_calls.specs.Verdicts.{verdict_by};
ghost use Rattle.huxarte_c.specs.Looking.{acting_number, any_handle_in, any_handle_seen, flag};
ghost use Rattle.huxarte_c.specs.Looking.{handle_in, handle_seen, handle_told, indices_in};
ghost use Rattle.huxarte_c.specs.Looking.{instance_in, instance_seen};
ghost use Rattle.huxarte_c.specs.Looking.{part_by, part_seen, resource_of};
ghost use Rattle.huxarte_c.specs.Looking.{state_in, state_seen, told_or};
ghost use Rattle.huxarte_c.specs.Refused.{of_set};

use crate::hux_set::HuxSet;
use crate::refusal::{SetRefusal, verdict};
use cm_handles::{Handle, HandleFault, HandleKind, Table};
use cm_machine_set::Set;
use cm_types::ResourceId;
use huxarte_c_calls::{HuxHandle, HuxVerdict};
use std::alloc::Global;

/// A set as a whole.
#[repr(C)]
#[derive(Clone, Copy)]
pub struct HuxSetState {
    /// How many instances there are.
    pub instances: usize,
    /// Which instance makes the next move; `SIZE_MAX` where no call is on the stack.
    pub acting: usize,
    /// How much is kept of the topmost call: records of parts of the value that is on its way,
    /// resources on their way, and handles that are lent to the call.
    pub records: usize,
    pub handles: usize,
    pub lends: usize,
}

/// An instance of a set.
#[repr(C)]
#[derive(Clone, Copy)]
pub struct HuxInstance {
    /// How many bytes its memory has.
    pub bytes: usize,
    /// How many indices its table has, 0 among them: no handle stands at another.
    pub indices: usize,
    /// 1 where a trap has closed it, else 0.
    pub closed: u32,
}

/// A resource of a set.
#[repr(C)]
#[derive(Clone, Copy)]
pub struct HuxResource {
    /// Which of its component's resources, from 0.
    pub number: u64,
    /// Which component defines it, from 0.
    pub component: u32,
}

impl HuxResource {
    /// The resource of these numbers.
    fn id(&self) -> ResourceId
        ensures { result ≡ resource_of self.now }
    {
        ResourceId {
            component: self.component,
            number: self.number,
        }
    }
}

/// The number of the instance whose move is next, or one that no instance has.
fn acting_number(acting: Option<u32>) -> usize
    ensures { result ≡ acting_number acting }
{
    match acting {
        Some(instance) => instance as usize,
        None => usize::MAX,
    }
}

/// A set as a whole, in numbers.
fn state_in(set: &Set) -> HuxSetState
    ensures { result ≡ state_in set.now }
{
    let work = set.work();
    HuxSetState {
        instances: set.closed_flags().len(),
        acting: acting_number(set.acting()),
        records: work.records,
        handles: work.handles,
        lends: work.lends,
    }
}

/// The set that is kept, as a whole.
fn look(alloc: Global, set: &mut HuxSet) -> Result<HuxSetState, SetRefusal>
    ensures seen { result ≡ state_seen set.old.kept }
    ensures kept { set.new.kept ≡ set.old.kept }
{
    let Some(kept) = set.take(alloc) else {
        return Err(SetRefusal::Empty);
    };
    let seen = state_in(kept.set());
    set.put(alloc, kept);
    Ok(seen)
}

/// 1 for what is so.
fn flag(is_so: bool) -> u32
    ensures { result ≡ flag is_so }
{
    u32::from(is_so)
}

/// How many indices a table has, if there is one.
fn indices_in(table: Option<&Table>) -> usize
    ensures { result ≡ indices_in (option_map (λ t. t.now.handles) table.entry) }
{
    match table {
        Some(table) => table.indices(),
        None => 0,
    }
}

/// An instance of a set.
fn instance_in(set: &Set, instance: u32) -> Result<HuxInstance, SetRefusal>
    ensures { result ≡ instance_in instance set.now }
{
    let closed = set.is_closed(instance).unwrap_or(false);
    let indices = indices_in(set.table(instance));
    match set.memory(instance) {
        Some(memory) => Ok(HuxInstance {
            bytes: memory.len(),
            indices,
            closed: flag(closed),
        }),
        None => Err(SetRefusal::NoInstance),
    }
}

/// An instance of the set that is kept.
fn look_at(alloc: Global, set: &mut HuxSet, instance: u32) -> Result<HuxInstance, SetRefusal>
    ensures seen { result ≡ instance_seen set.old.kept instance }
    ensures kept { set.new.kept ≡ set.old.kept }
{
    let Some(kept) = set.take(alloc) else {
        return Err(SetRefusal::Empty);
    };
    let seen = instance_in(kept.set(), instance);
    set.put(alloc, kept);
    seen
}

/// Copies a part of these bytes, where they are there and have it, and answers what it comes to.
fn copy_part(memory: Option<&[u8]>, at: usize, into: &mut [u8]) -> HuxVerdict
    ensures verdict { result ≡ verdict_by of_set
        (part_by at (length into.old) (option_copied memory.entry)) }
    ensures told { into.new
        ≡ told_or into.old (part_by at (length into.old) (option_copied memory.entry)) }
{
    let Some(memory) = memory else {
        return verdict(Err(SetRefusal::NoInstance));
    };
    let length = into.len();
    if at > memory.len() || length > memory.len() - at {
        return verdict(Err(SetRefusal::Outside));
    }
    into.copy_from_slice(&memory[at..at + length]);
    verdict(Ok(()))
}

/// A handle in numbers.
fn handle_told(handle: Handle) -> HuxHandle
    ensures { result ≡ handle_told handle }
{
    let (owned, call) = match handle.kind {
        HandleKind::Owned => (1, 0),
        HandleKind::Borrowed { call } => (0, call),
    };
    HuxHandle {
        number: handle.resource.number,
        serial: handle.serial,
        lends: handle.lends.min(u128::from(u64::MAX)) as u64,
        component: handle.resource.component,
        rep: handle.rep,
        owned,
        call,
    }
}

/// The handle at an index of the table of an instance, which is to be of a resource.
fn handle_in(
    set: &Set,
    instance: u32,
    index: u32,
    resource: ResourceId,
) -> Result<HuxHandle, SetRefusal>
    ensures { result ≡ handle_in instance index resource set.now }
{
    match set.table(instance) {
        Some(table) => match table.get(index, resource) {
            Ok(handle) => Ok(handle_told(handle)),
            Err(fault) => Err(SetRefusal::NoHandle(fault)),
        },
        None => Err(SetRefusal::NoInstance),
    }
}

/// The handle at an index of the table of an instance, of whatever resource.
fn any_handle_in(set: &Set, instance: u32, index: u32) -> Result<HuxHandle, SetRefusal>
    ensures { result ≡ any_handle_in instance index set.now }
{
    match set.table(instance) {
        Some(table) => match table.at(index) {
            Some(handle) => Ok(handle_told(handle)),
            None => Err(SetRefusal::NoHandle(HandleFault::NoHandle)),
        },
        None => Err(SetRefusal::NoInstance),
    }
}

/// The handle at an index of the table of an instance of the set that is kept.
fn find_any_handle(
    alloc: Global,
    set: &mut HuxSet,
    instance: u32,
    index: u32,
) -> Result<HuxHandle, SetRefusal>
    ensures seen { result ≡ any_handle_seen set.old.kept instance index }
    ensures kept { set.new.kept ≡ set.old.kept }
{
    let Some(kept) = set.take(alloc) else {
        return Err(SetRefusal::Empty);
    };
    let found = any_handle_in(kept.set(), instance, index);
    set.put(alloc, kept);
    found
}

/// The handle of a resource at an index of the table of an instance of the set that is kept.
fn find_handle(
    alloc: Global,
    set: &mut HuxSet,
    instance: u32,
    index: u32,
    resource: &HuxResource,
) -> Result<HuxHandle, SetRefusal>
    ensures seen { result ≡ handle_seen set.old.kept instance index resource.now }
    ensures kept { set.new.kept ≡ set.old.kept }
{
    let Some(kept) = set.take(alloc) else {
        return Err(SetRefusal::Empty);
    };
    let found = handle_in(kept.set(), instance, index, resource.id());
    set.put(alloc, kept);
    found
}

/// Puts what was seen into the place for it, and answers what that comes to.
pub(crate) fn tell<T: Copy>(found: Result<T, SetRefusal>, to: &mut T) -> HuxVerdict
    ensures verdict { result ≡ verdict_by of_set found }
    ensures told { to.new ≡ told_or to.old found }
{
    match found {
        Ok(seen) => {
            *to = seen;
            verdict(Ok(()))
        }
        Err(refusal) => verdict(Err(refusal)),
    }
}

/// Tells how many instances there are, whose move is next, and how much is kept of the topmost
/// call.
pub fn state(alloc: Global, set: &mut HuxSet, seen: &mut HuxSetState) -> HuxVerdict
    ensures verdict { result ≡ verdict_by of_set (state_seen set.old.kept) }
    ensures seen { seen.new ≡ told_or seen.old (state_seen set.old.kept) }
    ensures kept { set.new.kept ≡ set.old.kept }
{
    tell(look(alloc, set), seen)
}

/// Tells how many bytes the memory of an instance has, and whether a trap has closed it.
pub fn instance(
    alloc: Global,
    set: &mut HuxSet,
    instance: u32,
    seen: &mut HuxInstance,
) -> HuxVerdict
    ensures verdict { result ≡ verdict_by of_set (instance_seen set.old.kept instance) }
    ensures seen { seen.new ≡ told_or seen.old (instance_seen set.old.kept instance) }
    ensures kept { set.new.kept ≡ set.old.kept }
{
    tell(look_at(alloc, set, instance), seen)
}

/// Copies bytes of the memory of an instance, from `at` on: as many as there is room for.
pub fn read(
    alloc: Global,
    set: &mut HuxSet,
    instance: u32,
    at: usize,
    into: &mut [u8],
) -> HuxVerdict
    ensures verdict { result ≡ verdict_by of_set
        (part_seen set.old.kept instance at (length into.old)) }
    ensures seen { into.new
        ≡ told_or into.old (part_seen set.old.kept instance at (length into.old)) }
    ensures kept { set.new.kept ≡ set.old.kept }
{
    let Some(kept) = set.take(alloc) else {
        return verdict(Err(SetRefusal::Empty));
    };
    let copied = copy_part(kept.set().memory(instance), at, into);
    set.put(alloc, kept);
    copied
}

/// Tells the handle at an index of an instance's table, which is to be of a resource.
pub fn handle(
    alloc: Global,
    set: &mut HuxSet,
    instance: u32,
    index: u32,
    resource: &HuxResource,
    seen: &mut HuxHandle,
) -> HuxVerdict
    ensures verdict { result ≡ verdict_by of_set
        (handle_seen set.old.kept instance index resource.now) }
    ensures seen { seen.new
        ≡ told_or seen.old (handle_seen set.old.kept instance index resource.now) }
    ensures kept { set.new.kept ≡ set.old.kept }
{
    tell(find_handle(alloc, set, instance, index, resource), seen)
}

/// Tells the handle at an index of an instance's table, of whatever resource.
pub fn handle_at(
    alloc: Global,
    set: &mut HuxSet,
    instance: u32,
    index: u32,
    seen: &mut HuxHandle,
) -> HuxVerdict
    ensures verdict { result ≡ verdict_by of_set (any_handle_seen set.old.kept instance index) }
    ensures seen { seen.new
        ≡ told_or seen.old (any_handle_seen set.old.kept instance index) }
    ensures kept { set.new.kept ≡ set.old.kept }
{
    tell(find_any_handle(alloc, set, instance, index), seen)
}
