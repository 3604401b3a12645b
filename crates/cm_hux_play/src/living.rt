//! Playing a linked set line by line.

use crate::guarded::{Lines, MAX_LINE, Noted, ReadFault};
use crate::hearing::Hearing;
use crate::named::{component_names, file_names};
use crate::planned::write_plan;
use cm_hux_drive::files::{
    Ending, Fault, Files, Linked, LoadedFiles, Streams, ToolFault, create, load_files, unwritten,
};
use cm_hux_drive::lines::SetSize;
use cm_hux_said::Watch;
use cm_hux_words::{Habits, LiveWords};
use cm_live::{Listener, Record, Served, Session, serve};
use cm_live_plan::pages_of;
use cm_tool_script::{read_u32, read_u64};
use std::alloc::{AllocError, Global};
use std::io;
use std::io::{BufReader, Read, Write};

/// Links the components of files, prints what an engine needs to instantiate their core modules,
/// and plays them line by line. Standard error has lines of traps, unless only what is wrong is
/// wanted, and of calls and their values, where the words want it.
///
/// Objects are not printed, and no file is standard input, which has the lines: such words are
/// refused. Where the input ends within a line, or while a call is open, that is a fault.
pub fn run_live<F: Files, S: Streams, O: Write, E: Write>(
    alloc: Global,
    words: &LiveWords<'_>,
    habits: Habits,
    files: &mut F,
    streams: &mut S,
    out: &mut O,
    err: &mut E,
) -> Result<Ending, Fault> {
    check_words(alloc, words, habits)?;
    let limit = limit_of(alloc, words.limit)?;
    let (mut loaded, unread) = load_files(alloc, files, &words.files);
    loaded.serve_by(alloc, &words.serve)?;
    let linked = loaded.link(alloc, unread)?;
    let live = Live {
        alloc,
        loaded: &loaded,
        linked: &linked,
        limit,
        is_quiet: habits.quiet,
    };
    live.run(words, streams, out, err)
}

/// Refuses words that lines do not go with.
fn check_words(alloc: Global, words: &LiveWords<'_>, habits: Habits) -> Result<(), Fault> {
    let why = if habits.json {
        "--json: the lines of live have a form of their own"
    } else if words.files.iter().any(|name| *name == "-") {
        "-: live reads its lines from standard input, and no component"
    } else {
        return Ok(());
    };
    Err(Fault::Usage(format!(in alloc; "error: {why}")?))
}

/// A linked set that is played line by line.
#[derive(Clone, Copy)]
struct Live<'l, 'b, 'a> {
    alloc: Global,
    loaded: &'l LoadedFiles<'a>,
    linked: &'l Linked<'b>,
    /// The most moves.
    limit: u64,
    /// Whether traps are not told.
    is_quiet: bool,
}

impl<'l, 'b, 'a> Live<'l, 'b, 'a> {
    fn run<S: Streams, O: Write, E: Write>(
        &self,
        words: &LiveWords<'a>,
        streams: &mut S,
        out: &mut O,
        err: &mut E,
    ) -> Result<Ending, Fault> {
        let pages = pages(self.alloc, words.pages, self.linked)?;
        let mut session = session(self.alloc, self.linked, &pages)?;
        self.play(words, &mut session, pages, streams, out, err)
    }

    /// Prints what an engine needs, and plays the session, whose memories begin with these pages.
    fn play<S: Streams, O: Write, E: Write>(
        &self,
        words: &LiveWords<'a>,
        session: &mut Session<'_, '_>,
        pages: Vec<u32>,
        streams: &mut S,
        out: &mut O,
        err: &mut E,
    ) -> Result<Ending, Fault> {
        let names = component_names(self.alloc, self.loaded)?;
        let files = file_names(self.alloc, self.loaded)?;
        write_plan(self.alloc, self.loaded, self.linked, out)?;
        let watch = self.watch(words.values)?;
        let mut record = record(self.alloc, words.record, pages, streams)?;
        let Ok(reader) = streams.reader(self.alloc) else {
            return Err(Fault::Input);
        };
        let mut hearing = Hearing {
            watch,
            names: names.as_slice(),
            files: told(self.is_quiet, &files),
            err,
        };
        let Ok(mut lines) = BufReader::new(self.alloc, Lines::new(reader)) else {
            return Err(Fault::Memory);
        };
        self.serve(
            session,
            &mut lines,
            words.record,
            &mut record,
            &mut hearing,
            out,
        )
    }

    /// Who watches what passes, where the values are wanted.
    fn watch(&self, wanted: bool) -> Result<Option<Watch<'l, 'b>>, AllocError> {
        if wanted {
            Ok(Some(Watch::new(self.alloc, self.linked)?))
        } else {
            Ok(None)
        }
    }

    /// Plays the lines on the session, and records them where a record of this name is given.
    fn serve<R: Read, K: Write, L: Listener, O: Write>(
        &self,
        session: &mut Session<'_, '_>,
        lines: &mut BufReader<Lines<R>>,
        name: Option<&str>,
        record: &mut Option<Record<K>>,
        listener: &mut L,
        out: &mut O,
    ) -> Result<Ending, Fault> {
        let alloc = self.alloc;
        let mut noted = Noted::new(out);
        match serve(
            alloc, session, lines, &mut noted, record, listener, self.limit,
        ) {
            Ok(Served::Ended) => Ok(ended(alloc, session, lines.get_ref())?),
            Ok(Served::Trapped) => Ok(Ending::Trapped),
            Ok(Served::Limit) => Err(Fault::Moves { limit: self.limit }),
            Err(error) => {
                let fault = lines.get_ref().fault();
                Err(fault_of(alloc, &error, fault, noted.has_failed(), name)?)
            }
        }
    }
}

/// These names, unless no line of standard error wants them.
fn told(is_quiet: bool, names: &[String]) -> Option<&[String]> {
    if is_quiet { None } else { Some(names) }
}

/// How a session ends with its input: it is at fault within a line, and while a call is open.
fn ended<R: Read>(
    alloc: Global,
    session: &Session<'_, '_>,
    lines: &Lines<R>,
) -> Result<Ending, Fault> {
    if lines.is_within_line() {
        let text = String::from_str(alloc, "standard input ends within a line")?;
        return Err(Fault::Refused(text));
    }
    match session.acting() {
        Some(instance) => Err(Fault::Refused(format!(in alloc;
            "standard input ends while a call is open, of component {instance}"
        )?)),
        None => Ok(Ending::Done),
    }
}

/// Why serving failed, where reading has this fault, or none, and the output has failed or not. The
/// moves are recorded to the file of this name, if there is one.
fn fault_of(
    alloc: Global,
    error: &io::Error,
    fault: Option<ReadFault>,
    has_output_failed: bool,
    record: Option<&str>,
) -> Result<Fault, AllocError> {
    match (fault, record) {
        (Some(ReadFault::TooLong), _) => Ok(Fault::Refused(format!(in alloc;
            "standard input: a line has more than {MAX_LINE} bytes"
        )?)),
        (Some(ReadFault::Failed), _) => Ok(Fault::Input),
        (None, _) if has_output_failed => Ok(Fault::Output),
        (None, Some(name)) if error.kind() != io::ErrorKind::OutOfMemory => {
            Ok(unwritten(alloc, name, error))
        }
        (None, _) => Ok(Fault::Memory),
    }
}

/// The record of a session whose memories begin with these pages, where one is chosen.
fn record<S: Streams>(
    alloc: Global,
    name: Option<&str>,
    pages: Vec<u32>,
    streams: &mut S,
) -> Result<Option<Record<S::Writer>>, Fault> {
    match name {
        Some(name) => Ok(Some(Record::new(create(alloc, streams, name)?, pages))),
        None => Ok(None),
    }
}

/// The most moves.
fn limit_of(alloc: Global, word: Option<&str>) -> Result<u64, Fault> {
    match word {
        None => Ok(u64::MAX),
        Some(word) => match read_u64(word) {
            Some(limit) => Ok(limit),
            None => Err(Fault::Usage(format!(in alloc; "error: --limit {word}: no number")?)),
        },
    }
}

/// The pages of each component's memory.
fn pages(alloc: Global, words: Option<&str>, linked: &Linked<'_>) -> Result<Vec<u32>, Fault> {
    match words {
        Some(words) => given_pages(alloc, words),
        None => declared_pages(alloc, linked),
    }
}

fn given_pages(alloc: Global, words: &str) -> Result<Vec<u32>, Fault> {
    let mut pages = Vec::new(alloc);
    for word in words.split(',') {
        match read_u32(word) {
            Some(count) => pages.push(count)?,
            None => {
                let text = format!(in alloc; "error: --pages {words}: no numbers with , between")?;
                return Err(Fault::Usage(text));
            }
        }
    }
    Ok(pages)
}

fn declared_pages(alloc: Global, linked: &Linked<'_>) -> Result<Vec<u32>, Fault> {
    let mut pages = Vec::new(alloc);
    for checked in linked.components() {
        pages.push(pages_of(alloc, checked.component())?)?;
    }
    Ok(pages)
}

fn session<'c, 'b>(
    alloc: Global,
    linked: &'c Linked<'b>,
    pages: &[u32],
) -> Result<Session<'c, 'b>, Fault> {
    match Session::new(alloc, linked, pages) {
        Ok(session) => Ok(session),
        Err(misuse) => {
            let size = SetSize::new(linked.components().len(), pages);
            Err(Fault::Tool(ToolFault::Set { misuse, size }))
        }
    }
}
