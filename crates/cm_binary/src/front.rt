//! What was read of a file, and reading on.

ghost use Rattle.std.specs.Prelude.{◌≡◌, ◌+◌, ◌^◌, ◌<◌, length, IfOk, IfErr, OnErr};
ghost use Rattle.cm_binary_grammar.specs.Reading.{IsInside};
ghost use Rattle.cm_binary.specs.Progress.{fresh, Takes, Stops, Reaches, StopsInside};

use cm_binary_forms::{DecodeReason, read_section, room_after};
use cm_binary_grammar::{Cursor, End, ReadError};
use cm_binary_model::{COMPONENT_PREAMBLE, MAX_TYPES, Section};
use std::alloc::Global;

/// What comes next in a file.
#[derive(Clone, Copy)]
pub enum Next {
    Preamble,
    Section,
}

/// What was read of a file.
#[derive(Drop)]
pub struct Front {
    pub next: Next,
    /// The sections, in order.
    pub sections: Vec<Section>,
    /// How many bytes the preamble and the sections took.
    pub offset: usize,
    /// How many more types may stand in the file.
    pub room: usize,
}

impl Front {
    ghost use Rattle.cm_binary.specs.Views.{progress};
    ghost use Rattle.cm_binary.specs.declared.front.Next.TheVariants as nexts;

    /// Nothing was read.
    pub fn new(alloc: Global) -> Front
        ensures { progress result ≡ fresh }
    {
        Front {
            next: Next::Preamble,
            sections: Vec::new(alloc),
            offset: 0,
            room: MAX_TYPES,
        }
    }

    /// Reads the preamble at the front of bytes that end so: what stands behind it.
    fn read_preamble<'a>(
        &mut self,
        bytes: &'a [u8],
        end: End<DecodeReason>,
    ) -> Result<&'a [u8], ReadError<DecodeReason>>
        requires first { self.old.next ≡ nexts.Preamble }
        requires counts { self.old.offset + length bytes.now < 2 ^ 64 }
        ensures ok { IfOk result
            (λ behind. Takes (progress self.old) bytes.now behind.now (progress self.new)) }
        ensures err { IfErr result (λ e. Stops (progress self.old) end bytes.now e) }
        ensures same { OnErr result (progress self.new ≡ progress self.old) }
    {
        let mut cursor = Cursor::new(bytes, end);
        cursor.fixed(&COMPONENT_PREAMBLE, DecodeReason::BadPreamble)?;
        self.next = Next::Section;
        self.offset += COMPONENT_PREAMBLE.len();
        Ok(cursor.rest)
    }

    /// Reads a section at the front of bytes that end so: what stands behind it.
    fn read_section<'a>(
        &mut self,
        alloc: Global,
        bytes: &'a [u8],
        end: End<DecodeReason>,
    ) -> Result<&'a [u8], ReadError<DecodeReason>>
        requires first { self.old.next ≡ nexts.Section }
        requires counts { self.old.offset + length bytes.now < 2 ^ 64 }
        ensures ok { IfOk result
            (λ behind. Takes (progress self.old) bytes.now behind.now (progress self.new)) }
        ensures err { IfErr result (λ e. Stops (progress self.old) end bytes.now e) }
        ensures same { OnErr result (progress self.new ≡ progress self.old) }
    {
        let mut cursor = Cursor::new(bytes, end);
        let section = read_section(alloc, &mut cursor, self.room)?;
        let room = room_after(self.room, &section);
        self.sections.push(section)?;
        self.room = room;
        self.offset += bytes.len() - cursor.rest.len();
        Ok(cursor.rest)
    }

    /// Reads what comes next at the front of bytes that end so: what stands behind it.
    fn read_next<'a>(
        &mut self,
        alloc: Global,
        bytes: &'a [u8],
        end: End<DecodeReason>,
    ) -> Result<&'a [u8], ReadError<DecodeReason>>
        requires { self.old.offset + length bytes.now < 2 ^ 64 }
        ensures ok { IfOk result
            (λ behind. Takes (progress self.old) bytes.now behind.now (progress self.new)) }
        ensures err { IfErr result (λ e. Stops (progress self.old) end bytes.now e) }
        ensures same { OnErr result (progress self.new ≡ progress self.old) }
    {
        match self.next {
            Next::Preamble => self.read_preamble(bytes, end),
            Next::Section => self.read_section(alloc, bytes, end),
        }
    }

    /// Reads on in bytes that end so, as far as it goes: what stands behind what was read, and why
    /// no more was.
    pub fn read_on<'a>(
        &mut self,
        alloc: Global,
        bytes: &'a [u8],
        end: End<DecodeReason>,
    ) -> (&'a [u8], ReadError<DecodeReason>)
        requires { self.old.offset + length bytes.now < 2 ^ 64 }
        ensures reached { Reaches (progress self.old) bytes.now result.0.now (progress self.new) }
        ensures stopped { Stops (progress self.new) end result.0.now result.1 }
        ensures inside { StopsInside result.0.now result.1 }
    {
        let mut behind = bytes;
        loop {
            match self.read_next(alloc, behind, end) {
                Ok(rest) => behind = rest,
                Err(error) => return (behind, error),
            }
        }
    }
}
