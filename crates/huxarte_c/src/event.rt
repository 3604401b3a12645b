//! Events in numbers.

ghost use Rattle.std.specs.Prelude.{◌≡◌, []};
ghost use Rattle.cm_machine_model.specs.declared.event.Event.TheVariants as event;
ghost use Rattle.huxarte_c.specs.Events.{event_in, event_with, grown_number, plain_event};

use crate::cores::{HUX_MAX_CORE, HuxCore, placed};
use cm_machine_model::{Event, Flat};

/// What a move led to.
#[repr(C)]
#[derive(Clone, Copy)]
pub struct HuxEvent {
    /// 0 the bytes are written; 1 the memory has grown; 2 the body of a function begins; 3 the
    /// allocator of a call is called; 4 an instance goes on where it called; 5 a function tidies up
    /// behind a call; 6 the destructor of a dropped resource begins; 7 a trap has emptied the stack
    /// and closed the instances on it; 8 the root has returned.
    pub kind: u32,
    /// Which instance makes the next move, from 0, of the kinds 2 to 6; else 0.
    pub instance: u32,
    /// Which core function of its component it is in, from 0, of the kinds 2, 3, 5 and 6; else 0.
    pub func: u32,
    /// Of kind 1 the pages before, `UINT32_MAX` where none were added; of kind 6 the
    /// representation; of kind 7 the number of the trap (docs/RULES.md); else 0.
    pub number: u32,
    /// How many core values the instance is handed: arguments or results, of the kinds 2 to 5.
    pub count: u32,
    /// These core values; behind them 0.
    pub values: [HuxCore; HUX_MAX_CORE],
}

/// An event of this kind, with these core values.
fn event_with(kind: u32, instance: u32, func: u32, values: &Flat) -> HuxEvent
    ensures { result ≡ event_with kind instance func values.now }
{
    let values = values.as_slice();
    HuxEvent {
        kind,
        instance,
        func,
        number: 0,
        count: values.len().min(HUX_MAX_CORE) as u32,
        values: placed(values),
    }
}

/// An event of this kind that hands no core values.
fn plain_event(kind: u32, instance: u32, func: u32, number: u32) -> HuxEvent
    ensures { result ≡ plain_event kind instance func number }
{
    HuxEvent {
        kind,
        instance,
        func,
        number,
        count: 0,
        values: placed(&[]),
    }
}

/// The pages before, or a number that no memory has.
fn grown_number(pages: Option<u32>) -> u32
    ensures { result ≡ grown_number pages }
{
    match pages {
        Some(pages) => pages,
        None => u32::MAX,
    }
}

impl HuxEvent {
    /// A root call of an instance has begun.
    pub(crate) fn resumed(instance: u32) -> HuxEvent
        ensures { result ≡ event_in (event.Resume instance []) }
    {
        event_with(4, instance, 0, &Flat::new())
    }

    /// The event in numbers.
    pub(crate) fn of(event: &Event) -> HuxEvent
        ensures { result ≡ event_in event.now }
    {
        match event {
            Event::Done => plain_event(0, 0, 0, 0),
            Event::Grown(pages) => plain_event(1, 0, 0, grown_number(*pages)),
            Event::Enter {
                instance,
                func,
                args,
            } => event_with(2, *instance, *func, args),
            Event::Realloc {
                instance,
                func,
                args,
            } => event_with(3, *instance, *func, args),
            Event::Resume { instance, values } => event_with(4, *instance, 0, values),
            Event::PostReturn {
                instance,
                func,
                args,
            } => event_with(5, *instance, *func, args),
            Event::Dtor {
                instance,
                func,
                rep,
            } => plain_event(6, *instance, *func, *rep),
            Event::Trapped(trap) => plain_event(7, 0, 0, u32::from(trap.number())),
            Event::Ended => plain_event(8, 0, 0, 0),
        }
    }
}
