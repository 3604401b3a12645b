//! The line that each event prints.

ghost use Rattle.std.specs.Prelude.{OnOk};
ghost use Rattle.std.specs.Io.KnownBytes.{Appends};
ghost use Rattle.cm_tool_lines.specs.EventLines.{event_line};

use cm_machine_model::Event;
use cm_types::CoreValue;
use std::io::Write;
use std::{fmt, io};

/// Writes the line of an event, with its line feed; of a trap the number alone.
///
/// Without an error exactly that line was written. With one, which is the writer's, some of it may
/// have been.
pub fn write_event<O: Write>(out: &mut O, event: &Event) -> io::Result<()>
    ensures { OnOk result
        (Appends (O.contents out.old) (O.contents out.new) (event_line event.now)) }
{
    let text = EventText(event);
    writeln!(out, "{text}")
}

/// An event as its line, without the line feed.
#[derive(Clone, Copy)]
struct EventText<'e>(&'e Event);

impl fmt::Display for EventText<'_> {
    ghost use Rattle.std.specs.Prelude.{Some};
    ghost use Rattle.cm_tool_lines.specs.EventLines.{event_text};

    ghost output = { λ text. Some (event_text text.0.now) };

    fn fmt<W: fmt::Write>(&self, f: &mut fmt::Formatter<W>) -> fmt::Result {
        match self.0 {
            Event::Done => f.write_str("done"),
            Event::Grown(Some(pages)) => write!(f, "grown {pages}"),
            Event::Grown(None) => f.write_str("grown none"),
            Event::Enter {
                instance,
                func,
                args,
            } => {
                let values = ValueWords(args.as_slice());
                write!(f, "enter {instance} {func}{values}")
            }
            Event::Realloc {
                instance,
                func,
                args,
            } => {
                let numbers = NumberWords(args.as_slice());
                write!(f, "realloc {instance} {func}{numbers}")
            }
            Event::Resume { instance, values } => {
                let values = ValueWords(values.as_slice());
                write!(f, "resume {instance}{values}")
            }
            Event::PostReturn {
                instance,
                func,
                args,
            } => {
                let values = ValueWords(args.as_slice());
                write!(f, "postreturn {instance} {func}{values}")
            }
            Event::Dtor {
                instance,
                func,
                rep,
            } => write!(f, "dtor {instance} {func} {rep}"),
            Event::Trapped(trap) => {
                let number = trap.number();
                write!(f, "trapped {number}")
            }
            Event::Ended => f.write_str("ended"),
        }
    }
}

/// Core values, each with a space before it, its kind and its number.
#[derive(Clone, Copy)]
struct ValueWords<'v>(&'v [CoreValue]);

impl fmt::Display for ValueWords<'_> {
    ghost use Rattle.std.specs.Prelude.{Some};
    ghost use Rattle.std.specs.List.{flat_map};
    ghost use Rattle.cm_tool_lines.specs.EventLines.{value_word};

    ghost output = { λ words. Some (flat_map value_word words.0.now) };

    fn fmt<W: fmt::Write>(&self, f: &mut fmt::Formatter<W>) -> fmt::Result {
        for value in self.0 {
            let word = ValueWord(*value);
            write!(f, "{word}")?;
        }
        Ok(())
    }
}

/// Core values, each with a space before it and its number alone.
#[derive(Clone, Copy)]
struct NumberWords<'v>(&'v [CoreValue]);

impl fmt::Display for NumberWords<'_> {
    ghost use Rattle.std.specs.Prelude.{Some};
    ghost use Rattle.std.specs.List.{flat_map};
    ghost use Rattle.cm_tool_lines.specs.EventLines.{number_word};

    ghost output = { λ words. Some (flat_map number_word words.0.now) };

    fn fmt<W: fmt::Write>(&self, f: &mut fmt::Formatter<W>) -> fmt::Result {
        for value in self.0 {
            let word = NumberWord(*value);
            write!(f, "{word}")?;
        }
        Ok(())
    }
}

/// A core value with a space before it, its kind and its number.
#[derive(Clone, Copy)]
struct ValueWord(CoreValue);

impl fmt::Display for ValueWord {
    ghost use Rattle.std.specs.Prelude.{Some};
    ghost use Rattle.cm_tool_lines.specs.EventLines.{value_word};

    ghost output = { λ word. Some (value_word word.0) };

    fn fmt<W: fmt::Write>(&self, f: &mut fmt::Formatter<W>) -> fmt::Result {
        match self.0 {
            CoreValue::I32(number) => write!(f, " i32:{number}"),
            CoreValue::I64(number) => write!(f, " i64:{number}"),
        }
    }
}

/// A core value with a space before it, as its number alone.
#[derive(Clone, Copy)]
struct NumberWord(CoreValue);

impl fmt::Display for NumberWord {
    ghost use Rattle.std.specs.Prelude.{Some};
    ghost use Rattle.cm_tool_lines.specs.EventLines.{number_word};

    ghost output = { λ word. Some (number_word word.0) };

    fn fmt<W: fmt::Write>(&self, f: &mut fmt::Formatter<W>) -> fmt::Result {
        match self.0 {
            CoreValue::I32(number) => write!(f, " {number}"),
            CoreValue::I64(number) => write!(f, " {number}"),
        }
    }
}
