//! Events as rows show them.

use cm_machine::Event;
use cm_rows::{Line, write_core_values};

/// Writes an event, and whether a run stops after it.
pub fn write_event(line: &mut Line, event: &Event) {
    write_what(line, event);
    if event.is_last() {
        line.put(" (last)");
    }
}

fn write_what(line: &mut Line, event: &Event) {
    match event {
        Event::Done => line.put("done"),
        Event::Grown(Some(pages)) => {
            line.put("grown ");
            line.show(*pages);
        }
        Event::Grown(None) => line.put("grown none"),
        Event::Enter {
            instance,
            func,
            args,
        } => {
            write_call(line, "enter ", *instance, *func);
            write_core_values(line, args.as_slice());
        }
        Event::Resume { instance, values } => {
            line.put("resume ");
            line.show(*instance);
            write_core_values(line, values.as_slice());
        }
        Event::Realloc {
            instance,
            func,
            args,
        } => {
            write_call(line, "realloc ", *instance, *func);
            write_core_values(line, args.as_slice());
        }
        Event::PostReturn {
            instance,
            func,
            args,
        } => {
            write_call(line, "postreturn ", *instance, *func);
            write_core_values(line, args.as_slice());
        }
        Event::Dtor {
            instance,
            func,
            rep,
        } => {
            write_call(line, "dtor ", *instance, *func);
            line.put(" ");
            line.show(*rep);
        }
        Event::Trapped(trap) => {
            line.put("trapped ");
            line.debug(trap);
        }
        Event::Ended => line.put("ended"),
    }
}

/// Writes that a function of an instance is called.
fn write_call(line: &mut Line, call: &str, instance: u32, func: u32) {
    line.put(call);
    line.show(instance);
    line.put(" ");
    line.show(func);
}

/// Writes events, joined by `;`.
pub fn write_events(line: &mut Line, events: &[Event]) {
    for (i, event) in events.iter().enumerate() {
        if i > 0 {
            line.put("; ");
        }
        write_event(line, event);
    }
}
