//! What a call is answered with.

use cm_hux_drive::files::{Escaped, Fault, Object, Stop, tell, tell_fault, told};
use cm_hux_drive::{Event, Move, Printer, Set};
use cm_machine_model::Flat;
use std::alloc::Global;
use std::io::Write;

/// Keeps the core values with which the caller went on last, and prints what a script has printed,
/// and the result, as lines, or as JSON objects in lines.
#[derive(Drop)]
pub(crate) struct Resumed<'o, O> {
    alloc: Global,
    root: u32,
    values: Flat,
    json: bool,
    out: &'o mut O,
}

impl<'o, O: Write> Resumed<'o, O> {
    /// Of a caller that is this instance, and has not gone on yet.
    pub(crate) fn new(alloc: Global, root: u32, json: bool, out: &'o mut O) -> Resumed<'o, O> {
        Resumed {
            alloc,
            root,
            values: Flat::new(),
            json,
            out,
        }
    }

    /// The instance that calls.
    pub(crate) fn root(&self) -> u32 {
        self.root
    }

    /// The core values with which it went on last.
    pub(crate) fn values(&self) -> &Flat {
        &self.values
    }

    /// Prints the result, if the function has one, and writes out all that was printed.
    pub(crate) fn write_result(&mut self, answer: Option<&str>) -> Result<(), Stop> {
        match answer {
            Some(text) => self.write_line("result", text)?,
            None => self.write_no_result()?,
        }
        self.out.flush()?;
        Ok(())
    }

    /// Tells that there is no result, where objects are wanted.
    fn write_no_result(&mut self) -> Result<(), Stop> {
        if self.json {
            told(tell(Object::new(self.alloc).with("result", ())?, self.out))?;
        }
        Ok(())
    }

    /// Prints a line, which is this member of an object.
    fn write_line(&mut self, member: &str, line: &str) -> Result<(), Stop> {
        if self.json {
            return told(tell(Object::new(self.alloc).with(member, line)?, self.out));
        }
        writeln!(self.out, "{}", Escaped(line))?;
        Ok(())
    }
}

impl<O: Write> Printer for Resumed<'_, O> {
    fn begin(&mut self, _set: &Set, _root: u32, _event: &Event) -> Result<(), Stop> {
        Ok(())
    }

    fn before(&mut self, _set: &Set, _made: &Move) -> Result<(), Stop> {
        Ok(())
    }

    fn after(&mut self, _set: &Set, event: &Event) -> Result<(), Stop> {
        if let Event::Resume { instance, values } = event {
            if *instance == self.root {
                self.values = values.copied();
            }
        }
        Ok(())
    }

    fn print(&mut self, line: &str) -> Result<(), Stop> {
        self.write_line("print", line)
    }

    fn end(&mut self) -> Result<(), Stop> {
        self.out.flush()?;
        Ok(())
    }

    fn refused(&mut self, fault: &Fault) -> Result<(), Stop> {
        if self.json {
            told(tell_fault(self.alloc, fault, self.out))?;
        }
        Ok(())
    }
}
