//! The lines of answers.

ghost use Rattle.std.specs.Prelude.{◌≡◌, ◌≤◌, OnOk, length};
ghost use Rattle.std.specs.Io.KnownBytes.{Appends};
ghost use Rattle.hex.specs.Hex.{encode_lower};
ghost use Rattle.cm_live.specs.Lines.{answer_lines, region_bytes, region_line, region_lines};
ghost use Rattle.cm_live.specs.Sessions.{set_of};

use crate::answer::Answer;
use crate::session::Session;
use cm_abi_model::Region;
use cm_tool_lines::write_event;
use std::io;
use std::io::Write;

/// How many bytes are spelled at once: two digits each.
const PIECE: usize = 2048;

/// Writes bytes in hex digits, two each. An error is the writer's.
fn write_hex<O: Write>(out: &mut O, bytes: &[u8]) -> io::Result<()>
    ensures { OnOk result
        (Appends (O.contents out.old) (O.contents out.new) (encode_lower bytes.now)) }
{
    for piece in bytes.chunks(PIECE) {
        write_piece(out, piece)?;
    }
    Ok(())
}

/// The same, of so many bytes at most as are spelled at once.
fn write_piece<O: Write>(out: &mut O, bytes: &[u8]) -> io::Result<()>
    requires { length bytes.now ≤ PIECE }
    ensures { OnOk result
        (Appends (O.contents out.old) (O.contents out.new) (encode_lower bytes.now)) }
{
    let mut digits = [0; 2 * PIECE];
    let spelled = &mut digits[..2 * bytes.len()];
    let _fits = hex::encode_to_slice(bytes, spelled);
    out.write_all(spelled)
}

/// The bytes of a region of a memory: none where it passes the end.
fn bytes_of(memory: &[u8], region: Region) -> &[u8]
    ensures { result.now ≡ region_bytes memory.now region }
{
    let at = region.at as usize;
    memory
        .get(at..at.saturating_add(region.size as usize))
        .unwrap_or(&[])
}

/// Writes the line of a region with these bytes.
fn write_region<O: Write>(out: &mut O, instance: u32, at: u32, bytes: &[u8]) -> io::Result<()>
    ensures { OnOk result
        (Appends (O.contents out.old) (O.contents out.new) (region_line instance at bytes.now)) }
{
    if bytes.is_empty() {
        return Ok(());
    }
    write!(out, "mem {instance} {at} ")?;
    write_hex(out, bytes)?;
    out.write_all(b"\n")
}

/// Writes what adapters wrote: a line `mem I AT HEX` for each region that has bytes, with the
/// instance, the address in bytes and the bytes that stand there now. An error is the writer's.
fn write_regions<O: Write>(
    out: &mut O,
    instance: u32,
    regions: &[Region],
    memory: &[u8],
) -> io::Result<()>
    ensures { OnOk result (Appends (O.contents out.old) (O.contents out.new)
        (region_lines instance regions.now memory.now)) }
{
    for region in regions {
        write_region(out, instance, region.at, bytes_of(memory, *region))?;
    }
    Ok(())
}

/// Writes the lines of an answer of a session, each with its LF: `ready`, or what adapters wrote
/// and the event. The session is to be as the answer left it. Nothing is flushed. An error is the
/// writer's; a part of a line may be written then.
pub fn write_answer<O: Write>(
    out: &mut O,
    session: &Session<'_, '_>,
    answer: &Answer,
) -> io::Result<()>
    ensures { OnOk result (Appends (O.contents out.old) (O.contents out.new)
        (answer_lines (set_of session.now).state answer.now)) }
{
    match answer {
        Answer::Ready => out.write_all(b"ready\n"),
        Answer::Told { written, event } => {
            let memory = session.memory(written.instance).unwrap_or(&[]);
            write_regions(out, written.instance, &written.regions, memory)?;
            write_event(out, event)
        }
    }
}
