//! Playing a script whose checks are made.

use crate::checking::Checks;
use crate::printer::Printer;
use crate::seat::{Seat, seats_of};
use crate::traps::tell_trap;
use cm_hux_explain::{KeptMove, Trap};
use cm_hux_files::{Ending, Fault, LIMIT, Stop, ToolFault, report};
use cm_hux_script::{HuxScript, Moment, Script};
use cm_machine::{Event, Move, Player, Set, Watcher};
use cm_tool_lines::Drive;
use std::alloc::Global;
use std::io::Write;

/// A move that was made, and the instance that made it.
#[derive(Drop)]
struct Made {
    instance: u32,
    kept: KeptMove,
}

/// How a drive ended.
#[derive(Clone, Copy, Drop)]
pub struct DriveEnd {
    pub ending: Ending,
    /// Whether the root has returned.
    pub is_ended: bool,
}

/// A play whose checks are made, and which is printed.
#[derive(Drop)]
pub struct Watching<'w, P, E> {
    /// The names of the components, in order.
    names: Vec<String>,
    checks: Checks,
    printer: &'w mut P,
    err: &'w mut E,
    /// The last move of the drive.
    made: Option<Made>,
    /// The last event.
    event: Event,
    /// Why the play ends early.
    stop: Option<Stop>,
}

impl<'w, P: Printer, E: Write> Watching<'w, P, E> {
    /// A play in which nothing has happened, of components with these names, in order.
    pub fn new(
        names: Vec<String>,
        checks: Checks,
        printer: &'w mut P,
        err: &'w mut E,
    ) -> Watching<'w, P, E> {
        Watching {
            names,
            checks,
            printer,
            err,
            made: None,
            event: Event::Ended,
            stop: None,
        }
    }

    /// Makes the checks of a moment that is no guest's, where this is the last event.
    pub fn check(&mut self, moment: Moment, set: &Set, event: Option<&Event>) -> Result<(), Stop> {
        self.checks.make(moment, set, event, self.printer, self.err)
    }

    /// Plays a drive by the guests on these seats, makes its checks, and prints its fault or its
    /// trap, where it has one. A trap that a check expects is fine.
    pub fn drive(
        &mut self,
        set: &mut Set,
        seats: &mut Vec<Option<Seat>>,
        drive: Drive,
    ) -> Result<DriveEnd, Stop> {
        self.made = None;
        let played = Player::drive_watched(set, seats, drive.root, LIMIT, self);
        if let Some(stop) = self.stop {
            return Err(stop);
        }
        match played {
            Ok(last) => Ok(DriveEnd {
                ending: self.end(set, &last, drive)?,
                is_ended: matches!(last, Event::Ended),
            }),
            Err(misuse) => Ok(DriveEnd {
                ending: self.refuse(&Fault::Tool(ToolFault::Begin { misuse, drive }))?,
                is_ended: false,
            }),
        }
    }

    /// Makes the checks behind a drive, whose last event this is, and tells how it ended.
    fn end(&mut self, set: &Set, last: &Event, drive: Drive) -> Result<Ending, Stop> {
        self.check(Moment::Drive(drive.index), set, Some(last))?;
        self.printer.end()?;
        match last {
            Event::Ended => Ok(Ending::Done),
            Event::Trapped(trap) => Ok(self.trapped(*trap)),
            _ => {
                let limit = LIMIT;
                self.refuse(&Fault::Tool(ToolFault::Limit { limit, drive }))
            }
        }
    }

    /// Tells which move of which instance trapped, and the usual cause, unless a check expected it.
    fn trapped(&mut self, trap: Trap) -> Ending {
        if self.checks.is_trap_expected() {
            return Ending::Done;
        }
        if let Some(made) = &self.made {
            tell_trap(self.err, &self.names, trap, made.instance, &made.kept);
        }
        Ending::Trapped
    }

    fn refuse(&mut self, fault: &Fault) -> Result<Ending, Stop> {
        report(self.err, fault);
        self.printer.refused(fault)?;
        Ok(Ending::Refused)
    }

    /// Ends the play, and prints which checks were not made. The end is `Refused` where a check
    /// failed.
    pub fn finish(&mut self, ending: Ending) -> Result<Ending, Stop> {
        self.checks.tell_of_others(self.printer, self.err)?;
        self.printer.end()?;
        if self.checks.has_failed() {
            Ok(Ending::Refused)
        } else {
            Ok(ending)
        }
    }

    /// Makes the checks before a move, and prints and keeps the move.
    fn before(&mut self, set: &Set, made: &Move) -> Result<(), Stop> {
        let instance = set.acting().unwrap_or(0);
        self.checks.before_move(instance as usize, set, &self.event, self.printer, self.err)?;
        self.printer.before(set, made)?;
        let kept = KeptMove::of(made)?;
        self.made = Some(Made { instance, kept });
        Ok(())
    }

    /// The instance that made the last move of the drive, if one was made.
    fn mover(&self) -> Option<u32> {
        match &self.made {
            Some(made) => Some(made.instance),
            None => None,
        }
    }

    /// Prints an event, that of `begin` where no move was made before it, makes the checks behind
    /// the move, and keeps the event.
    fn after(&mut self, set: &Set, event: &Event) -> Result<(), Stop> {
        match self.mover() {
            None => {
                let root = set.acting().unwrap_or(0);
                self.printer.begin(set, root, event)?;
            }
            Some(instance) => {
                self.printer.after(set, event)?;
                self.checks
                    .behind_move(instance as usize, set, event, self.printer, self.err)?;
            }
        }
        self.event = event.clone()?;
        Ok(())
    }
}

/// The first fault ends the drive, and nothing is printed behind it.
impl<P: Printer, E: Write> Watcher for Watching<'_, P, E> {
    ghost use Rattle.std.specs.Prelude.{⊤};

    // What is printed is said by no contract.
    ghost before = { λ _ _ _ _. ⊤ };

    ghost after = { λ _ _ _ _ _. ⊤ };

    fn making(&mut self, set: &Set, made: &Move) {
        if self.stop.is_none() {
            self.stop = self.before(set, made).err();
        }
    }

    fn told(&mut self, set: &Set, event: &Event) -> bool {
        if self.stop.is_none() {
            self.stop = self.after(set, event).err();
        }
        self.stop.is_none()
    }
}

/// Plays each drive of a script, in order, makes its checks, and prints each move and event. The
/// events and their order are those of `component_tool play`.
///
/// A drive that is refused or that reaches its limit has a line on standard error, one that traps
/// two, with the names of the components and the usual cause; and the later ones run. So has a
/// check that fails, and the end is `Refused` then, whatever else was.
pub fn play_script<'w, P: Printer, E: Write>(
    alloc: Global,
    set: &mut Set,
    script: HuxScript,
    names: Vec<String>,
    printer: &'w mut P,
    err: &'w mut E,
) -> Result<Ending, Stop> {
    let HuxScript { script, checks } = script;
    let Script {
        pages: _,
        moves,
        begins,
    } = script;
    let components = moves.len();
    let mut seats = seats_of(alloc, moves)?;
    let checks = Checks::new(alloc, components, checks)?;
    let mut watching = Watching::new(names, checks, printer, err);
    watching.check(Moment::Start, set, None)?;
    let mut worst = Ending::Done;
    for (index, root) in begins.into_iter().enumerate() {
        let drive = Drive {
            index,
            root,
            components,
        };
        worst = worst.max(watching.drive(set, &mut seats, drive)?.ending);
    }
    watching.finish(worst)
}
