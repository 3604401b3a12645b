//! Calls and results as a diagram.

use crate::diagram::Diagram;
use crate::telling::Teller;
use cm_hux_drive::files::{Fault, Stop};
use cm_hux_said::Message;
use std::io;
use std::io::Write;

/// Writes messages to a diagram.
#[derive(Drop)]
pub(crate) struct SaidChart<'o, O> {
    pub(crate) diagram: Diagram,
    pub(crate) out: &'o mut O,
}

impl<O: Write> SaidChart<'_, O> {
    /// Ends the diagram.
    pub(crate) fn finish(self) -> io::Result<()> {
        let SaidChart { diagram, out } = self;
        diagram.finish(out)
    }
}

impl<O: Write> Teller for SaidChart<'_, O> {
    fn tell(&mut self, message: &Message) -> Result<(), Stop> {
        self.diagram.write(self.out, message)?;
        Ok(())
    }

    fn print(&mut self, line: &str) -> Result<(), Stop> {
        writeln!(self.out, "    %% {line}")?;
        Ok(())
    }

    fn pause(&mut self) -> Result<(), Stop> {
        Ok(())
    }

    fn refused(&mut self, _fault: &Fault) -> Result<(), Stop> {
        Ok(())
    }
}
