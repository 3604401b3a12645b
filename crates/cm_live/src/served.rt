//! A session over a reader and a writer.

ghost use Rattle.std.specs.Prelude.{◌≡◌, ◌-◌, ◌<◌, ◌^◌, ℕ, List, [], codes};
ghost use Rattle.std.specs.Prelude.{IfErr, IfOk, OnOk};
ghost use Rattle.std.specs.Io.KnownBytes.{Consumes};
ghost use Rattle.cm_live.specs.Recordings.{recording_of};
ghost use Rattle.cm_live.specs.Sessions.{linked_of, set_of};
ghost use Rattle.cm_live.specs.Tallies.{Answers, Counts, IsEndOf, IsRefusal, ReadsNext};
ghost use Rattle.cm_live.specs.Transcripts.{IsLineOf, IsOfNoStatement, LineDoes, Reply, Serves};
ghost use Rattle.cm_live.specs.Transcripts.{done, streams};

use crate::answer::Answer;
use crate::fault::{LiveFault, write_refusal};
use crate::listener::Listener;
use crate::record::{Record, admit, keep};
use crate::session::Session;
use crate::written::write_answer;
use cm_machine::Event;
use cm_tool_script::{LineFault, Statement};
use std::alloc::Global;
use std::io::{BufRead, Write};
use std::{io, str};

/// How serving ended.
#[derive(Clone, Copy, Debug, PartialEq, Eq)]
pub enum Served {
    /// With the input.
    Ended,
    /// With the input, after a root call that trapped.
    Trapped,
    /// So many moves were made.
    Limit,
}

/// What has been served.
#[derive(Clone, Copy)]
struct Tally {
    moves: u64,
    trapped: bool,
}

impl Tally {
    /// A statement more that was done, with this answer.
    fn add(&mut self, statement: &Statement, answer: &Answer)
        requires { self.old.moves < 2 ^ 64 - 1 }
        ensures { Counts self.old (done statement.now answer.now) self.new }
    {
        if let Statement::Move(_) = statement {
            self.moves += 1;
        }
        if let Answer::Told {
            event: Event::Trapped(_),
            ..
        } = answer
        {
            self.trapped = true;
        }
    }

    /// How serving ended, with the input or after so many moves.
    fn ended(self, limit: u64) -> Served
        ensures { IsEndOf result self limit }
    {
        if self.moves >= limit {
            Served::Limit
        } else if self.trapped {
            Served::Trapped
        } else {
            Served::Ended
        }
    }
}

/// Writes `ready`; then reads a line, does what it says, and writes and flushes its answer, line by
/// line, until the input ends or so many moves were made. A line that is refused is answered
/// `error: ` with the reason, and nothing has changed; so is a line that the input ends in, with no
/// LF behind it. The listener sees a move before it is made, and hears of a statement that was
/// done; it is recorded then, where a record is given, as a script that leads to the same events;
/// and then it is answered.
///
/// An error is one of the reader, the writer or the record, or that there is no memory for a line.
/// What the lines did that were read until then is done.
pub fn serve<R: BufRead, W: Write, K: Write, L: Listener>(
    alloc: Global,
    session: &mut Session<'_, '_>,
    reader: &mut R,
    writer: &mut W,
    record: &mut Option<Record<K>>,
    listener: &mut L,
    limit: u64,
) -> io::Result<Served>
    ensures linked { linked_of session.new ≡ linked_of session.old }
    ensures served { Serves (linked_of session.old) (recording_of «record».old) limit
        (codes "ready\n") (set_of session.old)
        (streams (R.remaining reader.old) (W.contents writer.old)) result
        (set_of session.new) (streams (R.remaining reader.new) (W.contents writer.new)) }
{
    writer.write_all(b"ready\n")?;
    writer.flush()?;
    let served = serve_lines(alloc, session, reader, writer, record, listener, limit)?;
    match record {
        Some(record) => record.finish()?,
        None => {}
    }
    Ok(served)
}

/// Serves line by line, until the input ends or so many moves were made.
fn serve_lines<R: BufRead, W: Write, K: Write, L: Listener>(
    alloc: Global,
    session: &mut Session<'_, '_>,
    reader: &mut R,
    writer: &mut W,
    record: &mut Option<Record<K>>,
    listener: &mut L,
    limit: u64,
) -> io::Result<Served>
    ensures linked { linked_of session.new ≡ linked_of session.old }
    ensures served { Serves (linked_of session.old) (recording_of «record».old) limit []
        (set_of session.old) (streams (R.remaining reader.old) (W.contents writer.old)) result
        (set_of session.new) (streams (R.remaining reader.new) (W.contents writer.new)) }
{
    let mut tally = Tally {
        moves: 0,
        trapped: false,
    };
    let mut line = Vec::new(alloc);
    for _ in 0..u64::MAX {
        if tally.moves >= limit {
            return Ok(Served::Limit);
        }
        if !read_line(reader, &mut line)? {
            return Ok(tally.ended(limit));
        }
        serve_line(alloc, session, &line, writer, record, listener, &mut tally)?;
        writer.flush()?;
    }
    Ok(tally.ended(limit))
}

/// Reads a line with its end, in place of another. False where there is none.
fn read_line<R: BufRead>(reader: &mut R, line: &mut Vec<u8>) -> io::Result<bool>
    ensures read { IfOk result (λ there. ReadsNext there (R.remaining reader.old) line.new.items
        (R.remaining reader.new)) }
    ensures part { (part : List ℕ)
        × Consumes (R.remaining reader.old) (R.remaining reader.new) part }
{
    line.clear();
    Ok(reader.read_until(b'\n', line)? > 0)
}

/// Does what a line says, and writes the answer.
fn serve_line<W: Write, K: Write, L: Listener>(
    alloc: Global,
    session: &mut Session<'_, '_>,
    line: &[u8],
    writer: &mut W,
    record: &mut Option<Record<K>>,
    listener: &mut L,
    tally: &mut Tally,
) -> io::Result<()>
    requires { tally.old.moves < 2 ^ 64 - 1 }
    ensures served { (r : Reply)
        × LineDoes (linked_of session.old) (recording_of «record».old) (set_of session.old)
        line.now r (set_of session.new) × Counts tally.old r tally.new
        × OnOk result (Answers (set_of session.new) r (recording_of «record».old)
        (recording_of «record».new) (W.contents writer.old) (W.contents writer.new)) }
    ensures linked { linked_of session.new ≡ linked_of session.old }
{
    let actor = session.acting();
    match do_line(alloc, session, line, record, listener) {
        Ok((statement, answer)) => {
            tally.add(&statement, &answer);
            listener.hear(session.set(), actor, &statement, &answer);
            keep(record, statement, line, actor)?;
            write_answer(writer, session, &answer)
        }
        Err(fault) => write_refusal(writer, fault, line),
    }
}

/// Does what a line says, and shows the listener a move before. Where it is refused, nothing has
/// changed.
fn do_line<K: Write, L: Listener>(
    alloc: Global,
    session: &mut Session<'_, '_>,
    line: &[u8],
    record: &Option<Record<K>>,
    listener: &mut L,
) -> Result<(Statement, Answer), LiveFault>
    ensures does { IfOk result (λ d. LineDoes (linked_of session.old) (recording_of «record».now)
        (set_of session.old) line.now (done d.0 d.1) (set_of session.new)) }
    ensures refused { IfErr result (λ f. IsRefusal (linked_of session.old)
        (recording_of «record».now) (set_of session.old) line.now f (set_of session.new)) }
    ensures linked { linked_of session.new ≡ linked_of session.old }
{
    let statement = statement_of(alloc, line)?;
    admit(record, &statement)?;
    if let Statement::Move(made) = &statement {
        listener.making(session.set(), made);
    }
    let answer = session.act(&statement)?;
    Ok((statement, answer))
}

/// The statement of a line with its end.
fn statement_of(alloc: Global, line: &[u8]) -> Result<Statement, LiveFault>
    ensures spelled { IfOk result (λ s. IsLineOf line.now s) }
    ensures refused { IfErr result (λ f. IsOfNoStatement line.now f) }
{
    let [content @ .., b'\n'] = line else {
        return Err(LiveFault::Cut);
    };
    match str::from_utf8(content) {
        Ok(text) => Ok(Statement::parse(alloc, text)?),
        Err(_) => Err(LiveFault::Line(LineFault::NotAStatement)),
    }
}
