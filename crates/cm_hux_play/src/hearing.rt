//! The lines on standard error of a set that is played line by line.

use crate::telling::look_before;
use cm_hux_drive::files::Stop;
use cm_hux_drive::{Event, Move, Set, ShortMove, tell_trap};
use cm_hux_said::{Message, Watch, write_message};
use cm_live::{Answer, Listener};
use cm_tool_script::Statement;
use std::alloc::AllocError;
use std::io::Write;

/// Tells of traps, as `play` does, and of calls and their values, where they are wanted.
#[derive(Drop)]
pub(crate) struct Hearing<'b, 'a, 'n, 'o, E> {
    /// Who watches what passes; none where that is not wanted, or cannot be told any more.
    pub(crate) watch: Option<Watch<'b, 'a>>,
    /// What the components are called, in order.
    pub(crate) names: &'n [&'n str],
    /// The words of the command line that name the files; none where traps are not told.
    pub(crate) files: Option<&'n [String]>,
    pub(crate) err: &'o mut E,
}

/// What passed by a statement with this event, if anything.
fn message_of(
    watch: &mut Watch<'_, '_>,
    set: &Set,
    statement: &Statement,
    event: &Event,
) -> Result<Option<Message>, AllocError> {
    match statement {
        Statement::Begin(root) => Ok(Some(watch.begin(*root))),
        Statement::Move(_) => {
            let closed = set.closed_flags();
            watch.after(event, closed.as_slice())
        }
        Statement::Pages(_) | Statement::Guest(_) => Ok(None),
    }
}

impl<E: Write> Hearing<'_, '_, '_, '_, E> {
    fn tell_values(&mut self, set: &Set, statement: &Statement, event: &Event) -> Result<(), Stop> {
        let Some(watch) = &mut self.watch else {
            return Ok(());
        };
        if let Some(message) = message_of(watch, set, statement, event)? {
            write_message(self.err, self.names, &message)?;
        }
        Ok(())
    }

    /// Tells of a trap, if a move came to one.
    fn tell_end(&mut self, actor: Option<u32>, statement: &Statement, event: &Event) {
        if let (Some(names), Some(instance), Statement::Move(made), Event::Trapped(trap)) = (
            self.files, actor, statement, event,
        ) {
            tell_trap(self.err, names, *trap, instance, &ShortMove(made));
        }
    }
}

impl<E: Write> Listener for Hearing<'_, '_, '_, '_, E> {
    fn making(&mut self, set: &Set, made: &Move) {
        let seen = match &mut self.watch {
            Some(watch) => look_before(watch, set, made),
            None => Ok(()),
        };
        if seen.is_err() {
            self.watch = None;
        }
    }

    fn hear(&mut self, set: &Set, actor: Option<u32>, statement: &Statement, answer: &Answer) {
        let Answer::Told { event, .. } = answer else {
            return;
        };
        if self.tell_values(set, statement, event).is_err() {
            self.watch = None;
        }
        self.tell_end(actor, statement, event);
    }
}
