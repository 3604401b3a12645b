//! Telling what components say to one another.

use cm_hux_drive::files::{Fault, Stop};
use cm_hux_drive::{Event, Move, Printer, Set};
use cm_hux_said::{Actor, Message, Watch};
use std::alloc::{AllocError, Global};

/// What is done with messages.
pub(crate) trait Teller {
    /// Something passed.
    fn tell(&mut self, message: &Message) -> Result<(), Stop>;

    /// The script has this line printed.
    fn print(&mut self, line: &str) -> Result<(), Stop>;

    /// A drive is over: what was told is to be seen.
    fn pause(&mut self) -> Result<(), Stop>;

    /// Standard error has a line of this fault: a drive is refused, or a check has failed.
    fn refused(&mut self, fault: &Fault) -> Result<(), Stop>;
}

/// Tells a teller what components say to one another.
#[derive(Drop)]
pub(crate) struct Telling<'b, 'a, T> {
    alloc: Global,
    watch: Watch<'b, 'a>,
    teller: T,
}

impl<'b, 'a, T: Teller> Telling<'b, 'a, T> {
    /// Watches a set in which nothing has happened, for a teller.
    pub(crate) fn new(alloc: Global, watch: Watch<'b, 'a>, teller: T) -> Telling<'b, 'a, T> {
        Telling {
            alloc,
            watch,
            teller,
        }
    }

    /// The teller, as the play left it.
    pub(crate) fn into_teller(self) -> T {
        let Telling { teller, .. } = self;
        teller
    }
}

/// Shows a watch the move that the acting instance of a set is about to make.
pub(crate) fn look_before(
    watch: &mut Watch<'_, '_>,
    set: &Set,
    made: &Move,
) -> Result<(), AllocError> {
    let instance = set.acting().unwrap_or(0);
    let closed = set.closed_flags();
    let (Some(memory), Some(table)) = (set.memory(instance), set.table(instance)) else {
        return Ok(());
    };
    let actor = Actor {
        instance,
        memory,
        table,
        closed: closed.as_slice(),
    };
    watch.before(&actor, made)
}

impl<T: Teller> Printer for Telling<'_, '_, T> {
    fn begin(&mut self, _set: &Set, root: u32, _event: &Event) -> Result<(), Stop> {
        let message = self.watch.begin(root);
        self.teller.tell(&message)
    }

    fn before(&mut self, set: &Set, made: &Move) -> Result<(), Stop> {
        look_before(&mut self.watch, set, made)?;
        Ok(())
    }

    fn after(&mut self, set: &Set, event: &Event) -> Result<(), Stop> {
        let closed = set.closed_flags();
        match self.watch.after(event, closed.as_slice())? {
            Some(message) => self.teller.tell(&message),
            None => Ok(()),
        }
    }

    fn print(&mut self, line: &str) -> Result<(), Stop> {
        self.teller.print(line)
    }

    fn end(&mut self) -> Result<(), Stop> {
        self.teller.pause()
    }

    fn refused(&mut self, fault: &Fault) -> Result<(), Stop> {
        self.teller.refused(fault)
    }
}
