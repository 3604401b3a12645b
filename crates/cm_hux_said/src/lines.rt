//! A line a message.

use crate::messages::{Message, Spoken, Trapping};
use cm_tool_help_texts::Escaped;
use std::io::Write;
use std::{fmt, io};

/// An instance by its number and the name of its component, as `1 user`; by its number alone where
/// no name is known.
#[derive(Clone, Copy)]
pub struct Participant<'n> {
    pub instance: u32,
    pub name: Option<&'n str>,
}

impl<'n> Participant<'n> {
    /// The instance of a number, by the names of the components in order.
    pub fn of(names: &[&'n str], instance: u32) -> Participant<'n> {
        Participant {
            instance,
            name: names.get(instance as usize).copied(),
        }
    }
}

impl fmt::Display for Participant<'_> {
    fn fmt<W: fmt::Write>(&self, f: &mut fmt::Formatter<W>) -> fmt::Result {
        let instance = self.instance;
        match self.name {
            Some(name) => write!(f, "{instance} {}", Escaped(name)),
            None => write!(f, "{instance}"),
        }
    }
}

/// Writes a message as a line: `begin 1 user`; of a call `1 user -> 0 provider  greet("world")` and
/// of its result `<- "hello, world"`, both with two blanks before them for each call below;
/// `trapped 15: BorrowsLeft, ..` with the instance, what it did, and which instances are closed; or
/// `ended`. The names are those of the components, in order. An error is the writer's.
pub fn write_message<O: Write>(out: &mut O, names: &[&str], message: &Message) -> io::Result<()> {
    match message {
        Message::Began { root } => writeln!(out, "begin {}", Participant::of(names, *root)),
        Message::Call(spoken) => write_call(out, names, spoken),
        Message::Answer(spoken) => write_answer(out, spoken),
        Message::Trapped(trapping) => write_trap(out, names, trapping),
        Message::Ended => out.write_all(b"ended\n"),
    }
}

fn write_indent<O: Write>(out: &mut O, depth: usize) -> io::Result<()> {
    for _ in 0..depth {
        out.write_all(b"  ")?;
    }
    Ok(())
}

fn write_call<O: Write>(out: &mut O, names: &[&str], spoken: &Spoken) -> io::Result<()> {
    write_indent(out, spoken.depth)?;
    let caller = Participant::of(names, spoken.caller);
    let callee = Participant::of(names, spoken.callee);
    write!(
        out,
        "{caller} -> {callee}  {}(",
        Escaped(spoken.name.as_str())
    )?;
    write_values(out, spoken)?;
    out.write_all(b")\n")
}

fn write_answer<O: Write>(out: &mut O, spoken: &Spoken) -> io::Result<()> {
    write_indent(out, spoken.depth)?;
    out.write_all(b"<-")?;
    if spoken.is_cut || !spoken.values.is_empty() {
        out.write_all(b" ")?;
    }
    write_values(out, spoken)?;
    out.write_all(b"\n")
}

/// Writes values, with commas between them, and `..` for those that are not known.
fn write_values<O: Write>(out: &mut O, spoken: &Spoken) -> io::Result<()> {
    for (index, value) in spoken.values.iter().enumerate() {
        if index > 0 {
            out.write_all(b", ")?;
        }
        write!(out, "{}", Escaped(value.as_str()))?;
    }
    if spoken.is_cut && spoken.values.is_empty() {
        out.write_all(b"..")?;
    }
    Ok(())
}

fn write_trap<O: Write>(out: &mut O, names: &[&str], trapping: &Trapping) -> io::Result<()> {
    let trap = trapping.trap;
    let number = trap.number();
    write!(out, "trapped {number}: {trap:?}, {trap}: ")?;
    let instance = Participant::of(names, trapping.instance);
    write!(out, "{instance}, {}", Escaped(trapping.doing.as_str()))?;
    for (index, instance) in trapping.closed.iter().enumerate() {
        out.write_all(if index == 0 { b"; closed: " } else { b", " })?;
        write!(out, "{}", Participant::of(names, *instance))?;
    }
    out.write_all(b"\n")
}
