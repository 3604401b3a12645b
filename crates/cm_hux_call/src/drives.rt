//! The drives of a call: those of a script, and behind them the call.

use cm_hux_drive::files::{Ending, Fault, LIMIT, Stop, ToolFault};
use cm_hux_drive::lines::Drive;
use cm_hux_drive::{
    Checks, DriveEnd, HuxScript, Misuse, Moment, Printer, Script, Seat, Set, Watching, seats_of,
};
use std::alloc::Global;
use std::io::Write;

/// The drives of a script for some files, and behind them that of a caller.
#[derive(Drop)]
pub(crate) struct Drives {
    /// The guests, the caller last.
    seats: Vec<Option<Seat>>,
    /// The roots, the caller last.
    begins: Vec<u32>,
    /// How many files there are.
    files: usize,
    caller: u32,
    checks: Checks,
}

impl Drives {
    /// Those of a script, whose roots have to be files, and behind them that of a caller, whose
    /// guest this is.
    pub(crate) fn new(alloc: Global, script: HuxScript, guest: Seat) -> Result<Drives, Fault> {
        let HuxScript { script, checks } = script;
        let Script {
            pages: _,
            moves,
            mut begins,
        } = script;
        let files = moves.len();
        are_of_files(&begins, files)?;
        let caller = u32::try_from(files).unwrap_or(u32::MAX);
        let mut seats = seats_of(alloc, moves)?;
        seats.push(Some(guest))?;
        begins.push(caller)?;
        Ok(Drives {
            seats,
            begins,
            files,
            caller,
            checks: Checks::new(alloc, files, checks)?,
        })
    }

    /// The instance of the caller.
    pub(crate) fn caller(&self) -> u32 {
        self.caller
    }

    /// Plays the drives up to one that does not end, makes the checks of the script, and prints
    /// them. The end tells whether the last one, the call, has been answered.
    pub(crate) fn play<'w, P: Printer, E: Write>(
        self,
        set: &mut Set,
        names: Vec<String>,
        printer: &'w mut P,
        err: &'w mut E,
    ) -> Result<DriveEnd, Stop> {
        let Drives {
            mut seats,
            begins,
            files,
            caller: _,
            checks,
        } = self;
        let mut watching = Watching::new(names, checks, printer, err);
        play_on(set, &mut seats, begins, files, &mut watching)
    }
}

/// Refuses drives whose root is none of the files, but the caller behind them, or nothing.
fn are_of_files(begins: &[u32], components: usize) -> Result<(), Fault> {
    for (index, root) in begins.iter().enumerate() {
        if *root as usize >= components {
            let drive = Drive {
                index,
                root: *root,
                components,
            };
            let misuse = Misuse::NoInstance;
            return Err(Fault::Tool(ToolFault::Begin { misuse, drive }));
        }
    }
    Ok(())
}

/// Plays drives of these roots, up to one that does not end.
fn play_on<P: Printer, E: Write>(
    set: &mut Set,
    seats: &mut Vec<Option<Seat>>,
    begins: Vec<u32>,
    components: usize,
    watching: &mut Watching<'_, P, E>,
) -> Result<DriveEnd, Stop> {
    watching.check(Moment::Start, set, None)?;
    for (index, root) in begins.into_iter().enumerate() {
        let drive = Drive {
            index,
            root,
            components,
        };
        let end = watching.drive(set, seats, drive)?;
        if !end.is_ended {
            return finish(watching, end);
        }
    }
    finish(
        watching,
        DriveEnd {
            ending: Ending::Done,
            is_ended: true,
        },
    )
}

/// Ends the play, and prints which checks were not made.
fn finish<P: Printer, E: Write>(
    watching: &mut Watching<'_, P, E>,
    end: DriveEnd,
) -> Result<DriveEnd, Stop> {
    Ok(DriveEnd {
        ending: watching.finish(end.ending)?,
        is_ended: end.is_ended,
    })
}
