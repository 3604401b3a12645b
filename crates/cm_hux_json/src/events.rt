//! Events as objects.

use crate::objects::Object;
use cm_machine_model::{Event, Trap};
use cm_types::CoreValue;
use serde_json::Value;
use std::alloc::{AllocError, Global};

/// An event as an object: its word as the member `event`, and what it says.
///
/// Of a trap it has the number, the name and the meaning. `AllocError` comes where there is no
/// memory.
pub fn event_object(alloc: Global, event: &Event) -> Result<Value, AllocError> {
    match event {
        Event::Done => word(alloc, "done"),
        Event::Grown(pages) => grown(alloc, *pages),
        Event::Enter {
            instance,
            func,
            args,
        } => called(alloc, "enter", (*instance, *func), args.as_slice()),
        Event::Realloc {
            instance,
            func,
            args,
        } => called(alloc, "realloc", (*instance, *func), args.as_slice()),
        Event::Resume { instance, values } => resumed(alloc, *instance, values.as_slice()),
        Event::PostReturn {
            instance,
            func,
            args,
        } => called(alloc, "postreturn", (*instance, *func), args.as_slice()),
        Event::Dtor {
            instance,
            func,
            rep,
        } => called(alloc, "dtor", (*instance, *func), &[CoreValue::I32(*rep)]),
        Event::Trapped(trap) => trapped(alloc, *trap),
        Event::Ended => word(alloc, "ended"),
    }
}

/// An event that says no more than its word.
fn word(alloc: Global, event: &str) -> Result<Value, AllocError> {
    Ok(Object::new(alloc).with("event", event)?.value())
}

fn grown(alloc: Global, pages: Option<u32>) -> Result<Value, AllocError> {
    let object = Object::new(alloc).with("event", "grown")?;
    Ok(object.with("pages", pages)?.value())
}

/// A core function of an instance begins, with these values.
fn called(
    alloc: Global,
    event: &str,
    (instance, func): (u32, u32),
    values: &[CoreValue],
) -> Result<Value, AllocError> {
    let object = Object::new(alloc).with("event", event)?;
    let object = object.with("instance", instance)?.with("func", func)?;
    Ok(object.with("values", core_values(alloc, values)?)?.value())
}

fn resumed(alloc: Global, instance: u32, values: &[CoreValue]) -> Result<Value, AllocError> {
    let object = Object::new(alloc).with("event", "resume")?;
    let object = object.with("instance", instance)?;
    Ok(object.with("values", core_values(alloc, values)?)?.value())
}

fn trapped(alloc: Global, trap: Trap) -> Result<Value, AllocError> {
    let object = Object::new(alloc).with("event", "trapped")?;
    Ok(object.with_derived("Trap", &trap, trap.number())?.value())
}

/// Core values in order: `{"i32":41}`, and of 64 bits a text, `{"i64":"41"}`, since many readers
/// keep but 53 bits of a number.
fn core_values(alloc: Global, values: &[CoreValue]) -> Result<Value, AllocError> {
    let mut list = Vec::with_capacity(alloc, values.len())?;
    for value in values {
        list.push(core_value(alloc, *value)?)?;
    }
    Ok(Value::Array(list))
}

fn core_value(alloc: Global, value: CoreValue) -> Result<Value, AllocError> {
    let object = Object::new(alloc);
    let object = match value {
        CoreValue::I32(number) => object.with("i32", number)?,
        CoreValue::I64(number) => {
            let digits = format!(in alloc; "{number}")?;
            object.with("i64", digits)?
        }
    };
    Ok(object.value())
}
