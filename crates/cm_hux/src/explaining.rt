//! Saying what traps, misuses and reasons mean.

use cm_hux_explain::{ExplainFault, Found, Row, find, write_found};
use cm_hux_play::files::{Ending, Fault, Object, tell};
use cm_hux_words::Habits;
use std::alloc::{AllocError, Global};
use std::io::Write;

/// Prints the meaning of each trap, misuse and reason that the words name. Words that name nothing
/// are no command.
pub(crate) fn run_explain<O: Write>(
    alloc: Global,
    words: &[&str],
    habits: Habits,
    out: &mut O,
) -> Result<Ending, Fault> {
    let found = match find(alloc, words) {
        Ok(found) => found,
        Err(ExplainFault::Unknown(text)) => return Err(Fault::Usage(text)),
        Err(ExplainFault::Memory) => return Err(Fault::Memory),
    };
    if habits.json {
        tell_found(alloc, &found, out)?;
    } else {
        write_found(&found, out)?;
    }
    Ok(Ending::Done)
}

/// Tells an object for each row.
fn tell_found<O: Write>(alloc: Global, found: &[Found], out: &mut O) -> Result<(), Fault> {
    for each in found {
        match each {
            Found::Whole(row) | Found::Line(row) => tell(row_object(alloc, row)?, out)?,
        }
    }
    out.flush()?;
    Ok(())
}

fn row_object(alloc: Global, row: &Row) -> Result<Object, AllocError> {
    let object = Object::new(alloc).with("kind", row.of)?;
    let object = object.with("name", row.name)?.with("number", row.number)?;
    let object = object
        .with("meaning", row.meaning)?
        .with("cause", row.cause)?;
    object
        .with("remedy", row.remedy)?
        .with("standard", row.standard)
}
