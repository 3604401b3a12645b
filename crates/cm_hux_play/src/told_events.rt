//! Events, and faults of drives, as habits want them told.

use cm_hux_drive::files::{Fault, Object, Stop, event_object, line_of, tell, tell_fault, told};
use cm_hux_drive::lines::write_event;
use cm_hux_drive::{Event, Move, Printer, Set};
use cm_hux_words::Habits;
use std::alloc::Global;
use std::io::Write;

/// Tells events as these habits want it: as lines, or as JSON objects in lines; and if nothing is
/// to be said but what is wrong, only those that are traps.
#[derive(Drop)]
pub(crate) struct ToldEvents<'o, O> {
    pub(crate) alloc: Global,
    pub(crate) habits: Habits,
    pub(crate) out: &'o mut O,
}

impl<O: Write> ToldEvents<'_, O> {
    fn tell(&mut self, event: &Event) -> Result<(), Stop> {
        if self.habits.quiet && !matches!(event, Event::Trapped(_)) {
            return Ok(());
        }
        if self.habits.json {
            let line = line_of(self.alloc, &event_object(self.alloc, event)?)?;
            self.out.write_all(line.as_bytes())?;
        } else {
            write_event(self.out, event)?;
        }
        Ok(())
    }
}

impl<O: Write> Printer for ToldEvents<'_, O> {
    fn begin(&mut self, _set: &Set, _root: u32, event: &Event) -> Result<(), Stop> {
        self.tell(event)
    }

    fn before(&mut self, _set: &Set, _made: &Move) -> Result<(), Stop> {
        Ok(())
    }

    fn after(&mut self, _set: &Set, event: &Event) -> Result<(), Stop> {
        self.tell(event)
    }

    fn print(&mut self, line: &str) -> Result<(), Stop> {
        if self.habits.quiet {
            return Ok(());
        }
        if self.habits.json {
            return told(tell(Object::new(self.alloc).with("print", line)?, self.out));
        }
        writeln!(self.out, "{line}")?;
        Ok(())
    }

    fn end(&mut self) -> Result<(), Stop> {
        self.out.flush()?;
        Ok(())
    }

    fn refused(&mut self, fault: &Fault) -> Result<(), Stop> {
        if self.habits.json {
            told(tell_fault(self.alloc, fault, self.out))?;
        }
        Ok(())
    }
}
