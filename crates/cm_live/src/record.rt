//! The moves of a session as a script.

ghost use Rattle.std.specs.Prelude.{◌≡◌, IfErr, OnOk, Some, true};
ghost use Rattle.std.specs.Option.{option_map};
ghost use Rattle.cm_live.specs.Recordings.{has_begun, recording_of};
ghost use Rattle.cm_live.specs.Transcripts.{Admits, IsOfNoRecord, begun_after};

use crate::fault::LiveFault;
use cm_tool_script::Statement;
use std::io;
use std::io::Write;

/// A script that is written as its moves are made: played on the same set, it leads to the same
/// events.
#[derive(Drop)]
pub struct Record<K> {
    out: K,
    /// Whose moves are written.
    guest: Option<u32>,
    /// The pages of the set, until the first root call.
    pages: Option<Vec<u32>>,
}

impl<K: Write> Record<K> {
    /// A script for a set of so many pages.
    pub fn new(out: K, pages: Vec<u32>) -> Record<K> {
        Record {
            out,
            guest: None,
            pages: Some(pages),
        }
    }

    /// Whether a statement can be recorded: `pages` up to the first root call.
    fn admit(&self, statement: &Statement) -> Result<(), LiveFault>
        ensures admits { OnOk result (Admits (Some (has_begun self.now)) statement.now) }
        ensures refused { IfErr result
            (λ f. IsOfNoRecord (Some (has_begun self.now)) statement.now f) }
    {
        match statement {
            Statement::Pages(_) if self.pages.is_none() => Err(LiveFault::Recorded),
            _ => Ok(()),
        }
    }

    /// Records a statement that was done, with its line, while this instance acted.
    fn take(&mut self, statement: Statement, line: &[u8], actor: Option<u32>) -> io::Result<()>
        ensures { OnOk result (has_begun self.new ≡ begun_after statement (has_begun self.old)) }
    {
        match statement {
            Statement::Pages(pages) => {
                self.pages = Some(pages);
                Ok(())
            }
            Statement::Guest(_) => Ok(()),
            Statement::Begin(_) => {
                self.put_pages()?;
                self.put(line)
            }
            Statement::Move(_) => {
                self.put_guest(actor)?;
                self.put(line)
            }
        }
    }

    /// Writes a line with its end.
    fn put(&mut self, line: &[u8]) -> io::Result<()>
        ensures { self.new.pages ≡ self.old.pages }
    {
        self.out.write_all(line)
    }

    /// Writes the script's first line, where it is not written.
    fn put_pages(&mut self) -> io::Result<()>
        ensures { has_begun self.new ≡ true }
    {
        let Some(pages) = self.pages.take() else {
            return Ok(());
        };
        write_pages(&mut self.out, pages)
    }

    /// Writes whose moves follow, where it is another's than before.
    fn put_guest(&mut self, actor: Option<u32>) -> io::Result<()>
        ensures { self.new.pages ≡ self.old.pages }
    {
        if self.guest == actor {
            return Ok(());
        }
        self.guest = actor;
        match actor {
            Some(actor) => writeln!(self.out, "guest {actor}"),
            None => Ok(()),
        }
    }

    /// The script is at its end: all of it is handed on.
    pub(crate) fn finish(&mut self) -> io::Result<()> {
        self.put_pages()?;
        self.out.flush()
    }
}

/// Writes the line `pages`.
fn write_pages<K: Write>(out: &mut K, pages: Vec<u32>) -> io::Result<()> {
    out.write_all(b"pages")?;
    for count in pages {
        write!(out, " {count}")?;
    }
    out.write_all(b"\n")
}

/// Whether a statement can be recorded, where a record is given.
pub(crate) fn admit<K: Write>(
    record: &Option<Record<K>>,
    statement: &Statement,
) -> Result<(), LiveFault>
    ensures admits { OnOk result (Admits (recording_of «record».now) statement.now) }
    ensures refused { IfErr result
        (λ f. IsOfNoRecord (recording_of «record».now) statement.now f) }
{
    match record {
        Some(record) => record.admit(statement),
        None => Ok(()),
    }
}

/// Records a statement that was done, with its line, while this instance acted, where a record is
/// given.
pub(crate) fn keep<K: Write>(
    record: &mut Option<Record<K>>,
    statement: Statement,
    line: &[u8],
    actor: Option<u32>,
) -> io::Result<()>
    ensures { OnOk result (recording_of «record».new
        ≡ option_map (begun_after statement) (recording_of «record».old)) }
{
    match record {
        Some(record) => record.take(statement, line, actor),
        None => Ok(()),
    }
}
