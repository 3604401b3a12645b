//! `hux` in process, over files that are handed over.

ghost use Rattle.huxarte_c_calls.specs.Texts.{IsText};

use crate::streams::GivenStreams;
use cm_hux::run_hux;
use huxarte_c_calls::{CommandFault, HuxEnd, HuxSpan, Printed};
use huxarte_c_components::{Command, HuxFile};
use std::alloc::Global;

/// Runs the command, and answers its exit status.
fn run(
    alloc: Global,
    bytes: &[u8],
    words: &[HuxSpan],
    files: &[HuxFile],
    printed: &mut Printed,
) -> Result<u8, CommandFault> {
    let mut command = Command::new(alloc, bytes, words, files)?;
    let Command { words, files } = &mut command;
    let mut streams = GivenStreams::new(files.input());
    let Printed { out, err } = printed;
    Ok(run_hux(alloc, words, files, &mut streams, out, err).status())
}

/// Runs a command of `hux` in process, over files that are handed over, as `hux_tool` does one of
/// `component_tool`. The file of the name `-` is standard input.
///
/// No file is written: where a command is to write one, as `hux stub -o` and `hux live --record`,
/// it ends with status 4, as where a file cannot be written.
#[unsafe(no_mangle)]
pub extern "C" fn hux_main(
    alloc: Global,
    bytes: &[u8],
    words: &[HuxSpan],
    files: &[HuxFile],
    out: &mut [u8],
    err: &mut [u8],
) -> HuxEnd
    ensures out { IsText out.old result.out out.new }
    ensures err { IsText err.old result.err err.new }
{
    let mut printed = Printed::new(alloc);
    let ran = run(alloc, bytes, words, files, &mut printed);
    printed.end(ran, out, err)
}
