//! Files that are read from a reader, and written to a writer.

ghost use Rattle.std.specs.Prelude.{◌≡◌, ◌↔◌, ℕ, ◌<◌, ◌≤◌, List, length, take, IfSome, IfErr};
ghost use Rattle.std.specs.Prelude.{OnOk, IsTrue};
ghost use Rattle.std.specs.Prelude.{MatchOption};
ghost use Rattle.std.specs.Io.KnownBytes.{Appends, Consumes, Keeps, IsAtEnd};
ghost use Rattle.std.specs.IoError.{error_kind};
ghost use Rattle.cm_binary_model.specs.Spelling.{spelling};
ghost use Rattle.cm_binary.specs.Pieces.{HasCome};
ghost use Rattle.cm_binary.specs.Streams.{FailsBehind, IsReadFrom, IsKnown, WritesSome};
ghost use Rattle.cm_binary.specs.declared.fault.WriteReason.TheVariants as reasons;

use crate::encode;
use crate::fault::{WriteFault, WriteReason};
use crate::gathered::Gathered;
use cm_binary_forms::{DecodeFault, DecodeReason};
use cm_binary_model::Component;
use std::alloc::{AllocError, Global};
use std::io;
use std::io::{ErrorKind, Read, Write};

/// The most bytes of one read.
const READ_BYTES: usize = 4_096;

/// Reads a component file from a reader, to the end of its bytes, or to a fault that they have
/// however they go on. A section is read once it is whole, so that the reader may be asked for the
/// rest of the one in which a fault stands. It takes time as the bytes do, and at most 4,096 bytes
/// of a read. A read that was interrupted is tried again.
///
/// Where the reader fails, the answer is the fault that the bytes read before have however they go
/// on, else `Read` at their number.
pub fn decode_from<R: Read>(alloc: Global, reader: &mut R) -> Result<Component, DecodeFault>
    // What was read, and what of it is the answer.
    ensures read { IsReadFrom (R.remaining reader.old) (R.remaining reader.new) result }
    // Of a reader whose bytes are known, the answer is that for them, unless it fails.
    ensures known { IfSome (R.remaining reader.old) (λ bytes. IsKnown bytes result) }
{
    read_from(alloc, reader)
}

/// Reads a component file from a reader.
fn read_from<R: Read>(alloc: Global, reader: &mut R) -> Result<Component, DecodeFault>
    ensures { IsReadFrom (R.remaining reader.old) (R.remaining reader.new) result }
{
    let mut gathered = Gathered::new(alloc);
    let mut buffer = [0; READ_BYTES];
    for _ in 0..u64::MAX {
        match read_some(reader, &mut buffer) {
            Some(0) => return gathered.finish(),
            Some(count) => gathered.take(&buffer[..count])?,
            None => return Err(read_fault(gathered)),
        }
    }
    Err(read_fault(gathered))
}

/// Reads some bytes: how many, 0 at the reader's end, or nothing where it failed.
fn read_some<R: Read>(reader: &mut R, buffer: &mut [u8]) -> Option<usize>
    ensures bound { IfSome result (λ count. count ≤ length buffer.new) }
    ensures bytes { MatchOption result (Keeps (R.remaining reader.old) (R.remaining reader.new))
        (λ count. Consumes (R.remaining reader.old) (R.remaining reader.new)
        (take count buffer.new)) }
    ensures end { IfSome result (λ count. count ≡ 0 → 0 < length buffer.new
        → IsAtEnd (R.remaining reader.new)) }
{
    for _ in 0..u64::MAX {
        match reader.read(buffer) {
            Ok(count) => return Some(count),
            Err(error) => {
                if !is_interrupted(&error) {
                    break;
                }
            }
        }
    }
    None
}

/// Whether the call is to be made again.
fn is_interrupted(error: &io::Error) -> bool
    ensures { IsTrue result ↔ (error_kind error.now ≡ ErrorKind.Interrupted) }
{
    error.kind() == ErrorKind::Interrupted
}

/// The fault where the reader failed behind what has come.
fn read_fault(mut gathered: Gathered) -> DecodeFault
    ensures { (bytes : List ℕ) → HasCome gathered.decoder gathered.unfed.items bytes
        → FailsBehind bytes result }
{
    match gathered.feed_all() {
        Err(fault) => fault,
        Ok(()) => DecodeFault {
            at: gathered.decoder.position(),
            reason: DecodeReason::Read,
        },
    }
}

/// Writes a component as a file: the bytes of [`encode`](crate::encode). Where the writer fails
/// or takes none, it holds the first bytes of the file, as many as the fault says. A write that was
/// interrupted is tried again.
pub fn write_to<W: Write>(
    alloc: Global,
    component: &Component,
    writer: &mut W,
) -> Result<(), WriteFault>
    ensures ok { OnOk result (Appends (W.contents writer.old) (W.contents writer.new)
        (spelling component.now)) }
    ensures err { IfErr result (λ f. WritesSome (W.contents writer.old) (W.contents writer.new)
        (spelling component.now) f) }
    ensures memory { IfErr result (λ f. f.reason ≡ reasons.Memory → f.written ≡ 0) }
{
    match encode(alloc, component) {
        Ok(file) => write_all(&file, writer),
        Err(AllocError) => Err(WriteFault {
            written: 0,
            reason: WriteReason::Memory,
        }),
    }
}

/// Writes all of the bytes, in as many calls as it takes.
fn write_all<W: Write>(bytes: &[u8], writer: &mut W) -> Result<(), WriteFault>
    ensures ok { OnOk result (Appends (W.contents writer.old) (W.contents writer.new)
        bytes.now) }
    ensures err { IfErr result (λ f. WritesSome (W.contents writer.old) (W.contents writer.new)
        bytes.now f) }
    ensures write { IfErr result (λ f. f.reason ≡ reasons.Write) }
{
    let mut written = 0;
    while written < bytes.len() {
        let taken = write_some(&bytes[written..], writer);
        if taken == 0 {
            return Err(WriteFault {
                written,
                reason: WriteReason::Write,
            });
        }
        written += taken;
    }
    Ok(())
}

/// Writes some of the bytes, from the first one on: how many, 0 where the writer failed.
fn write_some<W: Write>(bytes: &[u8], writer: &mut W) -> usize
    ensures bound { result ≤ length bytes.now }
    ensures bytes { Appends (W.contents writer.old) (W.contents writer.new)
        (take result bytes.now) }
{
    for _ in 0..u64::MAX {
        match writer.write(bytes) {
            Ok(taken) => return taken,
            Err(error) => {
                if !is_interrupted(&error) {
                    break;
                }
            }
        }
    }
    0
}
