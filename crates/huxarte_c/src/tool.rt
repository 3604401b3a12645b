//! `component_tool` in process, over files that are handed over.

ghost use Rattle.huxarte_c_calls.specs.Texts.{IsText};

use cm_tool::tool;
use huxarte_c_calls::{CommandFault, HuxEnd, HuxSpan, Printed};
use huxarte_c_components::{Command, HuxFile};
use std::alloc::Global;

/// Runs the command, and answers its exit status.
fn run(
    alloc: Global,
    bytes: &[u8],
    words: &[HuxSpan],
    files: &[HuxFile],
    printed: &mut Printed,
) -> Result<u8, CommandFault> {
    let mut command = Command::new(alloc, bytes, words, files)?;
    let Command { words, files } = &mut command;
    let Printed { out, err } = printed;
    Ok(tool(alloc, words, files, out, err))
}

/// Runs a command of `component_tool` in process, over files that are handed over: its words, those
/// behind the program's name, are parts of the bytes, and so are the names of the files and what
/// stands in them (docs/COMMAND.md). No other file is there, and none is written.
///
/// As many bytes of what is printed on standard output and standard error as there is room for are
/// written into `out` and `err`, and the answer says how many there are of each.
#[unsafe(no_mangle)]
pub extern "C" fn hux_tool(
    alloc: Global,
    bytes: &[u8],
    words: &[HuxSpan],
    files: &[HuxFile],
    out: &mut [u8],
    err: &mut [u8],
) -> HuxEnd
    ensures out { IsText out.old result.out out.new }
    ensures err { IsText err.old result.err err.new }
{
    let mut printed = Printed::new(alloc);
    let ran = run(alloc, bytes, words, files, &mut printed);
    printed.end(ran, out, err)
}
