//! Values in memory, copied to another by the puts of their types.

ghost use Rattle.std.specs.Prelude.{◌≡◌, ◌==◌, ◌+◌, ◌*◌, ◌%◌, ◌^◌, ◌<◌, ◌≤◌, [], ◌∷◌, length, not};
ghost use Rattle.std.specs.Prelude.{if◌then◌else◌};
ghost use Rattle.std.specs.Option.{ForSome};
ghost use Rattle.cm_layout.specs.declared.layouts.Leaf.TheVariants.{Flags};
ghost use Rattle.cm_abi_load.specs.Sized.{IsNumberSize, IsSizedLeaf};
ghost use Rattle.cm_abi_model.specs.Numbers.{number_at as bytes_at};
ghost use Rattle.cm_abi_model.specs.Stores.{bytes_of, placed, poke};
ghost use Rattle.cm_abi_programs.specs.CodedPuts.{put_of, puts_in};
ghost use Rattle.cm_abi_programs.specs.Puts.{is_bulk_of, one_put, text_put};
ghost use Rattle.cm_abi_running.specs.Putting.{copied, written_each};
ghost use Rattle.cm_abi_running.specs.Copying.{copying_of};
ghost use Rattle.cm_abi_running.specs.PutsReady.{AreEachPutReady, ArePutsReady, IsListPutReady};
ghost use Rattle.cm_abi_running.specs.PutsReady.{IsPutReady};
ghost use Rattle.cm_abi_running.specs.PutsWithin.{ArePutsWithin};
ghost use Rattle.cm_abi_running.specs.Ready.{IsTextReady};
ghost use Rattle.cm_abi_running.specs.PutsWritten.{LieBetween, LiesBetween, Writes};
ghost use Rattle.cm_abi_running.specs.PutsWritten.{running, running_list, running_one};
ghost use Rattle.cm_abi_running.specs.PutsWritten.{running_text};

use crate::copier::Copier;
use crate::texts::{size_of_part, write_text_at};
use cm_abi_load::{labels_set, number_32, number_at};
use cm_abi_programs::Put;
use cm_abi_store::{Next, store_handle, store_pointer, units_stored, write_bytes, write_number};

/// A slice of bytes is shorter than 2^63, so an address in it and an offset fit 64 bits together.
fn fits_a_slice(bytes: &[u8])
    ensures { length bytes.now < 2 ^ 63 }
{
    let _length = bytes.len();
}

/// Copies so many bytes as they are, from an address of a source to one of a memory.
fn copy_run(source: &[u8], memory: &mut [u8], from: usize, at: usize, size: usize)
    requires within { from + size ≤ length source.now }
    requires inside { at + size ≤ length memory.old }
    ensures stored { memory.new ≡ poke (copied source.now size from at) memory.old }
    ensures stays { length memory.new ≡ length memory.old }
{
    write_bytes(memory, at, &source[from..from + size]);
}

/// Copies a bool, which is written as 0 or 1.
fn put_truth(source: &[u8], memory: &mut [u8], from: usize, at: usize)
    requires within { from + 1 ≤ length source.now }
    requires inside { at + 1 ≤ length memory.old }
    ensures stored { memory.new
        ≡ poke ((at, (if not (bytes_at 1 source.now from == 0) then 1 else 0)) ∷ []) memory.old }
    ensures stays { length memory.new ≡ length memory.old }
{
    memory[at] = u8::from(number_at(source, 1, from) != 0);
}

/// Copies flags, of so many bytes and labels; no bit beside these is written.
fn put_flags(source: &[u8], memory: &mut [u8], bytes: u32, labels: usize, from: usize, at: usize)
    requires sized { IsSizedLeaf (Flags labels bytes) }
    requires within { from + bytes ≤ length source.now }
    requires inside { at + bytes ≤ length memory.old }
    ensures stored { memory.new
        ≡ poke (placed at (bytes_of bytes (bytes_at bytes source.now from % 2 ^ labels)))
        memory.old }
    ensures stays { length memory.new ≡ length memory.old }
{
    let number = number_at(source, bytes, from) as u32;
    write_number(memory, at, bytes, u64::from(labels_set(labels, number)));
}

/// Copies the number of a case, of so many bytes, and tells it.
fn put_case(source: &[u8], memory: &mut [u8], bytes: u32, from: usize, at: usize) -> u32
    requires size { IsNumberSize bytes }
    requires small { bytes ≤ 4 }
    requires within { from + bytes ≤ length source.now }
    requires inside { at + bytes ≤ length memory.old }
    ensures case { result ≡ bytes_at bytes source.now from }
    ensures stored { memory.new
        ≡ poke (placed at (bytes_of bytes (bytes_at bytes source.now from))) memory.old }
    ensures stays { length memory.new ≡ length memory.old }
{
    let number = number_at(source, bytes, from);
    write_number(memory, at, bytes, number);
    number as u32
}

/// Copies a string: a pointer to its place and how many units it has, and its bytes at its place.
fn put_text(from: &Copier<'_>, memory: &mut [u8], source: usize, at: usize, next: &mut Next)
    requires within { source + 8 ≤ length from.now.memory.now }
    requires inside { at + 8 ≤ length memory.old }
    requires ready { IsTextReady (length memory.old) (copying_of from.now)
        (bytes_at 4 from.now.memory.now source) (bytes_at 4 from.now.memory.now (source + 4))
        next.old.part }
    ensures { Writes
        (running_text (copying_of from.now) source at next.old.part next.old.handle)
        next.new memory.old memory.new }
{
    fits_a_slice(from.memory);
    let pointer = number_32(from.memory, source);
    let tagged = number_32(from.memory, source + 4);
    let encoding = from.target.encoding;
    let part = next.part;
    let size = size_of_part(from, part);
    let units = units_stored(encoding, size);
    let place = store_pointer(&from.target, memory, at, units, next);
    write_text_at(from, pointer, tagged, encoding, memory, place, size, part);
}

/// Where the string stands of a value whose puts are one string and nothing else.
fn only_text(puts: &[Put]) -> Option<u32>
    ensures { ForSome result (λ behind. puts_in puts.now ≡ one_put (text_put behind)) }
{
    match puts {
        [Put::Text { at }] => Some(*at),
        _ => None,
    }
}

/// Copies so many values from an address of the source on, so far one behind the other, of which
/// each is a string that stands so far behind where the value begins.
fn put_texts(
    from: &Copier<'_>,
    memory: &mut [u8],
    behind: u32,
    distance: u32,
    count: u32,
    source: usize,
    at: usize,
    next: &mut Next,
)
    requires each { behind + 8 ≤ distance }
    requires within { source + count * distance ≤ length from.now.memory.now }
    requires inside { at + count * distance ≤ length memory.old }
    requires ready { AreEachPutReady
        (ArePutsReady (length memory.old) (copying_of from.now) (one_put (text_put behind)))
        (running (copying_of from.now) (one_put (text_put behind))) distance count source at
        next.old.part next.old.handle }
    ensures { Writes
        (written_each (running (copying_of from.now) (one_put (text_put behind))) distance count
        source at next.old.part next.old.handle)
        next.new memory.old memory.new }
{
    fits_a_slice(from.memory);
    fits_a_slice(memory);
    let mut start = source;
    let mut to = at;
    for _ in 0..count {
        put_text(
            from,
            memory,
            start + behind as usize,
            to + behind as usize,
            next,
        );
        start += distance as usize;
        to += distance as usize;
    }
}

/// Whether puts write so many bytes as they are, and nothing else.
#[tactic(auto, using(crate::proofs::PuttingLemmas::many_puts))]
fn is_bulk(puts: &[Put], size: u32) -> bool
    ensures { result ≡ is_bulk_of size (puts_in puts.now) }
{
    match puts {
        [Put::Run { at, length }] => *at == 0 && *length == size,
        _ => false,
    }
}

/// Copies by puts, in order, the value that begins at an address of the source to an address of the
/// memory, both in bytes from 0 (CanonicalABI.md, "Loading" and "Storing").
///
/// Each string and list is stored at the place of the next part, and of each handle the next
/// number. The next part and the next handle are then those behind the value's; it takes no memory.
#[cycle(putting)]
#[inline(always)]
pub fn put_all(
    from: &Copier<'_>,
    memory: &mut [u8],
    puts: &[Put],
    source: usize,
    at: usize,
    next: &mut Next,
)
    requires within { LieBetween (puts_in puts.now) source (length from.now.memory.now) at
        (length memory.old) }
    requires ready { ArePutsReady (length memory.old) (copying_of from.now) (puts_in puts.now)
        source at next.old.part next.old.handle }
    ensures { Writes
        (running (copying_of from.now) (puts_in puts.now) source at next.old.part next.old.handle)
        next.new memory.old memory.new }
{
    for put in puts {
        put_one(from, memory, put, source, at, next);
    }
}

/// Copies by one put of the value that begins at an address of the source.
#[cycle(putting)]
fn put_one(
    from: &Copier<'_>,
    memory: &mut [u8],
    put: &Put,
    source: usize,
    at: usize,
    next: &mut Next,
)
    requires within { LiesBetween (put_of put.now) source (length from.now.memory.now) at
        (length memory.old) }
    requires ready { IsPutReady (length memory.old) (copying_of from.now) (put_of put.now) source
        at next.old.part next.old.handle }
    ensures { Writes
        (running_one (copying_of from.now) (put_of put.now) source at next.old.part
        next.old.handle)
        next.new memory.old memory.new }
{
    fits_a_slice(from.memory);
    fits_a_slice(memory);
    match put {
        Put::Run { at: behind, length } => {
            let (start, to) = (source + *behind as usize, at + *behind as usize);
            copy_run(from.memory, memory, start, to, *length as usize)
        }
        Put::Truth { at: behind } => {
            let (start, to) = (source + *behind as usize, at + *behind as usize);
            put_truth(from.memory, memory, start, to)
        }
        Put::Flags {
            at: behind,
            bytes,
            labels,
        } => {
            let (start, to) = (source + *behind as usize, at + *behind as usize);
            put_flags(from.memory, memory, *bytes, *labels, start, to)
        }
        Put::Text { at: behind } => {
            let (start, to) = (source + *behind as usize, at + *behind as usize);
            put_text(from, memory, start, to, next)
        }
        Put::List {
            at: behind,
            size,
            puts,
        } => {
            let (start, to) = (source + *behind as usize, at + *behind as usize);
            put_list(from, memory, puts, *size, start, to, next)
        }
        Put::Each {
            at: behind,
            distance,
            count,
            puts,
        } => {
            let (start, to) = (source + *behind as usize, at + *behind as usize);
            put_each(from, memory, puts, *distance, *count, start, to, next)
        }
        Put::Cases {
            at: behind,
            bytes,
            offset,
            cases,
        } => {
            let (start, to) = (source + *behind as usize, at + *behind as usize);
            let index = put_case(from.memory, memory, *bytes, start, to);
            let (start, to) = (start + *offset as usize, to + *offset as usize);
            match cases.get(index as usize) {
                Some(case) => put_all(from, memory, &case.puts, start, to, next),
                None => {}
            }
        }
        Put::Handle { at: behind } => {
            store_handle(&from.target, memory, at + *behind as usize, next)
        }
        Put::Part { at: behind, puts } => {
            let (start, to) = (source + *behind as usize, at + *behind as usize);
            put_all(from, memory, puts, start, to, next)
        }
    }
}

/// Copies a list of elements that take so many bytes: a pointer to its place and how many elements
/// it has, and these at its place.
#[cycle(putting)]
fn put_list(
    from: &Copier<'_>,
    memory: &mut [u8],
    puts: &[Put],
    size: u32,
    source: usize,
    at: usize,
    next: &mut Next,
)
    requires each { ArePutsWithin size (puts_in puts.now) }
    requires within { source + 8 ≤ length from.now.memory.now }
    requires inside { at + 8 ≤ length memory.old }
    requires ready { IsListPutReady (length memory.old) (copying_of from.now)
        (ArePutsReady (length memory.old) (copying_of from.now) (puts_in puts.now))
        (running (copying_of from.now) (puts_in puts.now)) size
        (bytes_at 4 from.now.memory.now source) (bytes_at 4 from.now.memory.now (source + 4))
        next.old.part next.old.handle }
    ensures { Writes
        (running_list (copying_of from.now) (puts_in puts.now) size source at next.old.part
        next.old.handle)
        next.new memory.old memory.new }
{
    fits_a_slice(from.memory);
    let pointer = number_32(from.memory, source);
    let count = number_32(from.memory, source + 4);
    let place = store_pointer(&from.target, memory, at, count as usize, next);
    put_elements(
        from,
        memory,
        puts,
        size,
        count,
        pointer as usize,
        place,
        next,
    );
}

/// Copies so many elements that take so many bytes, one behind the other; where these are bytes
/// that are written as they are, all at once.
#[cycle(putting)]
pub(crate) fn put_elements(
    from: &Copier<'_>,
    memory: &mut [u8],
    puts: &[Put],
    size: u32,
    count: u32,
    source: usize,
    at: usize,
    next: &mut Next,
)
    requires each { ArePutsWithin size (puts_in puts.now) }
    requires within { source + count * size ≤ length from.now.memory.now }
    requires inside { at + count * size ≤ length memory.old }
    requires ready { AreEachPutReady
        (ArePutsReady (length memory.old) (copying_of from.now) (puts_in puts.now))
        (running (copying_of from.now) (puts_in puts.now)) size count source at next.old.part
        next.old.handle }
    ensures { Writes
        (written_each (running (copying_of from.now) (puts_in puts.now)) size count source at
        next.old.part next.old.handle)
        next.new memory.old memory.new }
{
    if is_bulk(puts, size) {
        fits_a_slice(memory);
        copy_run(
            from.memory,
            memory,
            source,
            at,
            count as usize * size as usize,
        );
    } else {
        put_each(from, memory, puts, size, count, source, at, next);
    }
}

/// Copies by puts so many values from an address of the source on, so far one behind the other.
#[cycle(putting)]
fn put_each(
    from: &Copier<'_>,
    memory: &mut [u8],
    puts: &[Put],
    distance: u32,
    count: u32,
    source: usize,
    at: usize,
    next: &mut Next,
)
    requires each { ArePutsWithin distance (puts_in puts.now) }
    requires within { source + count * distance ≤ length from.now.memory.now }
    requires inside { at + count * distance ≤ length memory.old }
    requires ready { AreEachPutReady
        (ArePutsReady (length memory.old) (copying_of from.now) (puts_in puts.now))
        (running (copying_of from.now) (puts_in puts.now)) distance count source at next.old.part
        next.old.handle }
    ensures { Writes
        (written_each (running (copying_of from.now) (puts_in puts.now)) distance count source at
        next.old.part next.old.handle)
        next.new memory.old memory.new }
{
    if puts.is_empty() {
        return;
    }
    if let Some(behind) = only_text(puts) {
        put_texts(from, memory, behind, distance, count, source, at, next);
        return;
    }
    fits_a_slice(from.memory);
    fits_a_slice(memory);
    let mut start = source;
    let mut to = at;
    for _ in 0..count {
        put_all(from, memory, puts, start, to, next);
        start += distance as usize;
        to += distance as usize;
    }
}
