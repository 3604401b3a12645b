//! Calls and results as objects, or only the traps.

use crate::telling::Teller;
use cm_hux_drive::files::{Fault, Object, Stop, ToValue, Value, tell, tell_fault, told};
use cm_hux_said::{Message, Spoken, Trapping, write_message};
use cm_hux_words::Habits;
use std::alloc::{AllocError, Global};
use std::io::Write;

/// Writes messages as these habits want them: as lines, or as JSON objects in lines; and if nothing
/// is to be said but what is wrong, only traps.
#[derive(Drop)]
pub(crate) struct SaidObjects<'n, 'o, O> {
    pub(crate) alloc: Global,
    /// The names of the components, in order.
    pub(crate) names: &'n [&'n str],
    pub(crate) habits: Habits,
    pub(crate) out: &'o mut O,
}

impl<O: Write> Teller for SaidObjects<'_, '_, O> {
    fn tell(&mut self, message: &Message) -> Result<(), Stop> {
        if self.habits.quiet && !matches!(message, Message::Trapped(_)) {
            return Ok(());
        }
        if self.habits.json {
            return told(tell(said_object(self.alloc, self.names, message)?, self.out));
        }
        write_message(self.out, self.names, message)?;
        Ok(())
    }

    fn print(&mut self, line: &str) -> Result<(), Stop> {
        if self.habits.quiet {
            return Ok(());
        }
        if self.habits.json {
            return told(tell(Object::new(self.alloc).with("print", line)?, self.out));
        }
        writeln!(self.out, "{line}")?;
        Ok(())
    }

    fn pause(&mut self) -> Result<(), Stop> {
        self.out.flush()?;
        Ok(())
    }

    fn refused(&mut self, fault: &Fault) -> Result<(), Stop> {
        if self.habits.json {
            told(tell_fault(self.alloc, fault, self.out))?;
        }
        Ok(())
    }
}

/// A message as an object: its word as the member `said`, and who says what to whom.
fn said_object(alloc: Global, names: &[&str], message: &Message) -> Result<Object, AllocError> {
    let object = Object::new(alloc);
    match message {
        Message::Began { root } => {
            let object = object.with("said", "begin")?.with("instance", *root)?;
            object.with("component", name_of(alloc, names, *root)?)
        }
        Message::Call(spoken) => with_spoken(alloc, object.with("said", "call")?, spoken),
        Message::Answer(spoken) => with_spoken(alloc, object.with("said", "answer")?, spoken),
        Message::Trapped(trapping) => with_trap(alloc, object.with("said", "trapped")?, trapping),
        Message::Ended => object.with("said", "ended"),
    }
}

/// What the component of an instance is called; `null` where no name is known.
fn name_of(alloc: Global, names: &[&str], instance: u32) -> Result<Value, AllocError> {
    match names.get(instance as usize) {
        Some(name) => (*name).to_value(alloc),
        None => Ok(Value::Null),
    }
}

/// With what a call passes one way, each value as text, and whether these were cut.
fn with_spoken(alloc: Global, object: Object, spoken: &Spoken) -> Result<Object, AllocError> {
    let mut values = Vec::with_capacity(alloc, spoken.values.len())?;
    for value in &spoken.values {
        values.push(value.as_str().to_value(alloc)?)?;
    }
    let object = object.with("depth", spoken.depth)?;
    let object = object.with("caller", spoken.caller)?;
    let object = object.with("callee", spoken.callee)?;
    let object = object.with("name", spoken.name.as_str())?;
    object.with("values", values)?.with("cut", spoken.is_cut)
}

fn with_trap(alloc: Global, object: Object, trapping: &Trapping) -> Result<Object, AllocError> {
    let trap = trapping.trap;
    let mut closed = Vec::with_capacity(alloc, trapping.closed.len())?;
    for instance in &trapping.closed {
        closed.push(Value::from(*instance))?;
    }
    let object = object.with_derived("Trap", &trap, trap.number())?;
    let object = object.with("instance", trapping.instance)?;
    let object = object.with("doing", trapping.doing.as_str())?;
    object.with("closed", closed)
}
