//! What passes between components, as a sequence.

use crate::charted::Charted;
use cm_hux_said::{Message, Spoken, Trapping};
use std::io;
use std::io::Write;

/// A Mermaid sequence diagram that is written message by message. Participants are the instances,
/// by number and name.
#[derive(Clone, Copy)]
pub(crate) struct Diagram {
    /// How many messages may still be written.
    room: u64,
    left_out: u64,
    participants: usize,
    root: u32,
}

impl Diagram {
    /// Writes the head of a diagram of instances whose components have these names, in order, of so
    /// many messages at most. An error is the writer's, here and below.
    pub(crate) fn begin<O: Write>(
        out: &mut O,
        names: &[&str],
        messages: u64,
    ) -> io::Result<Diagram> {
        out.write_all(b"sequenceDiagram\n")?;
        for (instance, name) in names.iter().enumerate() {
            let name = Charted(name);
            writeln!(out, "    participant c{instance} as {instance} {name}")?;
        }
        Ok(Diagram {
            room: messages,
            left_out: 0,
            participants: names.len(),
            root: 0,
        })
    }

    /// Writes a message, if there is room for it: a call and a result as an arrow, and the others
    /// as notes.
    pub(crate) fn write<O: Write>(&mut self, out: &mut O, message: &Message) -> io::Result<()> {
        if let Message::Began { root } = message {
            self.root = *root;
        }
        if self.room == 0 {
            self.left_out = self.left_out.saturating_add(1);
            return Ok(());
        }
        self.room -= 1;
        match message {
            Message::Began { root } => writeln!(out, "    Note over c{root}: begin"),
            Message::Call(spoken) => write_call(out, spoken),
            Message::Answer(spoken) => write_answer(out, spoken),
            Message::Trapped(trapping) => write_trap(out, trapping),
            Message::Ended => {
                let root = self.root;
                writeln!(out, "    Note over c{root}: ended")
            }
        }
    }

    /// Says how many messages were left out, if any.
    pub(crate) fn finish<O: Write>(&self, out: &mut O) -> io::Result<()> {
        let left_out = self.left_out;
        match (left_out, self.participants) {
            (0, _) => {}
            (_, 0 | 1) => writeln!(out, "    Note over c0: {left_out} messages are left out")?,
            (_, participants) => {
                let last = participants.saturating_sub(1);
                writeln!(
                    out,
                    "    Note over c0,c{last}: {left_out} messages are left out"
                )?;
            }
        }
        out.flush()
    }
}

fn write_call<O: Write>(out: &mut O, spoken: &Spoken) -> io::Result<()> {
    let (caller, callee) = (spoken.caller, spoken.callee);
    let name = Charted(spoken.name.as_str());
    write!(out, "    c{caller}->>c{callee}: {name}(")?;
    write_values(out, spoken)?;
    out.write_all(b")\n")
}

/// Writes an answer; `()` stands where there is no result, since an arrow wants a text.
fn write_answer<O: Write>(out: &mut O, spoken: &Spoken) -> io::Result<()> {
    let (caller, callee) = (spoken.caller, spoken.callee);
    write!(out, "    c{callee}-->>c{caller}: ")?;
    if spoken.values.is_empty() && !spoken.is_cut {
        out.write_all(b"()")?;
    }
    write_values(out, spoken)?;
    out.write_all(b"\n")
}

fn write_values<O: Write>(out: &mut O, spoken: &Spoken) -> io::Result<()> {
    for (index, value) in spoken.values.iter().enumerate() {
        if index > 0 {
            out.write_all(b", ")?;
        }
        write!(out, "{}", Charted(value.as_str()))?;
    }
    if spoken.is_cut && spoken.values.is_empty() {
        out.write_all(b"..")?;
    }
    Ok(())
}

fn write_trap<O: Write>(out: &mut O, trapping: &Trapping) -> io::Result<()> {
    let instance = trapping.instance;
    let (trap, number) = (trapping.trap, trapping.trap.number());
    let doing = Charted(trapping.doing.as_str());
    writeln!(
        out,
        "    Note over c{instance}: trapped {number} {trap:?}, {trap}, {doing}"
    )?;
    for instance in &trapping.closed {
        writeln!(out, "    Note over c{instance}: closed")?;
    }
    Ok(())
}
