//! Reading the files of a command.

ghost use Rattle.std.specs.Prelude.{◌≡◌, IfOk, Ok};
ghost use Rattle.cm_validate_model.specs.Valid.{IsValid};
ghost use Rattle.cm_validate_functions.specs.cm_validate_spaces.Checked.{sections_in, spaces_in};
ghost use Rattle.cm_shims_plain.specs.Reading.{IsReadAs, outcome};
ghost use Rattle.cm_shims.specs.Fitting.{AllHold};

use crate::fault::{Fault, WhyNoFile};
use crate::serve_words::component_name;
use cm_shims::{Place, ShimFault, Shimmed, fits, read};
use cm_tool_commands::{BadFile, Checked, FileReason, Files, ValidFault, checked_of, read_file};
use cm_tool_help_texts::{bytes_help, valid_help};
use std::alloc::Global;

/// A file that is read: its name, which is the word of the command line, its bytes, and what it
/// stands for. A part of a bundle has the name of the bundle.
#[derive(Drop)]
pub struct Loaded<'a> {
    pub name: &'a str,
    pub bytes: Vec<u8>,
    pub shimmed: Shimmed,
    /// What a part of a bundle is called, as `name/1`.
    pub(crate) part: Option<String>,
}

/// Why something is not made; what is made is not kept.
pub(crate) fn not_made<T: Drop>(made: Result<T, Fault>) -> Result<(), Fault> {
    match made {
        Ok(_) => Ok(()),
        Err(fault) => Err(fault),
    }
}

/// A tail, or none where there is no memory for it.
pub fn kept<E: Drop>(alloc: Global, tail: Result<String, E>) -> String {
    match tail {
        Ok(tail) => tail,
        Err(_) => String::new(alloc),
    }
}

/// The fault of a file; `Memory` where there is none for its name.
pub fn of_file(alloc: Global, bad: BadFile<'_>) -> Fault {
    no_file(
        alloc,
        bad.name,
        WhyNoFile::Reason(bad.reason),
        String::new(alloc),
    )
}

/// The fault of a component file, or of a part of a bundle that is called so, with a tail.
fn no_file(alloc: Global, name: &str, why: WhyNoFile, tail: String) -> Fault {
    match String::from_str(alloc, name) {
        Ok(name) => Fault::File { name, why, tail },
        Err(_) => Fault::Memory,
    }
}

/// The fault of bytes that a file or a part of this name has: what stands there.
fn not_read(alloc: Global, name: &str, bytes: &[u8], fault: ShimFault) -> Fault {
    match fault {
        ShimFault::Decode(fault) => {
            let reason = FileReason::NoComponent {
                fault,
                found: bytes.get(fault.at).copied(),
            };
            let tail = kept(alloc, bytes_help(alloc, bytes, fault));
            no_file(alloc, name, WhyNoFile::Reason(reason), tail)
        }
        ShimFault::Plain(fault) => {
            no_file(alloc, name, WhyNoFile::Plain(fault), String::new(alloc))
        }
        ShimFault::Limit(fault) => {
            no_file(alloc, name, WhyNoFile::Limit(fault), String::new(alloc))
        }
    }
}

/// The bytes of the file of this name.
pub fn read_bytes<F: Files>(alloc: Global, files: &mut F, name: &str) -> Result<Vec<u8>, Fault> {
    match read_file(alloc, files, name) {
        Ok(bytes) => Ok(bytes),
        Err(bad) => Err(of_file(alloc, bad)),
    }
}

/// What the file of this name stands for, which may have shims: what `cm_shims::read` answers for
/// its bytes.
pub fn load_file<'a, F: Files>(
    alloc: Global,
    files: &mut F,
    name: &'a str,
) -> Result<Loaded<'a>, Fault>
    ensures name { IfOk result (λ l. l.name ≡ name.entry) }
    ensures read { IfOk result (λ l. IsReadAs l.bytes.items (outcome (Ok l.shimmed))) }
{
    load_bytes(alloc, name, read_bytes(alloc, files, name)?)
}

/// What a file with these bytes stands for, which may have shims.
pub fn load_bytes<'a>(alloc: Global, name: &'a str, bytes: Vec<u8>) -> Result<Loaded<'a>, Fault>
    ensures name { IfOk result (λ l. l.name ≡ name.entry) }
    ensures read { IfOk result (λ l. IsReadAs l.bytes.items (outcome (Ok l.shimmed))) }
{
    match read(alloc, bytes.as_slice()) {
        Ok(shimmed) => Ok(Loaded {
            name,
            bytes,
            shimmed,
            part: None,
        }),
        Err(fault) => Err(not_read(alloc, name, bytes.as_slice(), fault)),
    }
}

/// What a part with these bytes stands for, which is called so, of the bundle of this name.
pub(crate) fn load_part<'a>(
    alloc: Global,
    name: &'a str,
    part: String,
    bytes: Vec<u8>,
) -> Result<Loaded<'a>, Fault> {
    match read(alloc, bytes.as_slice()) {
        Ok(shimmed) => Ok(Loaded {
            name,
            bytes,
            shimmed,
            part: Some(part),
        }),
        Err(fault) => Err(not_read(alloc, part.as_str(), bytes.as_slice(), fault)),
    }
}

impl<'a> Loaded<'a> {
    /// The file as a valid component, of which all holds that its shims want.
    pub fn check<'b>(&'b self, alloc: Global) -> Result<Checked<'b>, Fault>
        ensures held { IfOk result (λ c. sections_in c ≡ self.now.shimmed.component) }
        ensures valid { IfOk result (λ c. IsValid self.now.shimmed.component) }
        ensures fits { IfOk result (λ c. AllHold (spaces_in c) self.now.shimmed.wants.items) }
    {
        let checked = match checked_of(alloc, self.name, &self.shimmed.component) {
            Ok(checked) => checked,
            Err(bad) => return Err(self.not_valid(alloc, bad.reason)),
        };
        match fits(alloc, &checked, self.shimmed.wants.as_slice()) {
            Ok(()) => Ok(checked),
            Err(fault) => {
                let why = WhyNoFile::Unmet(fault);
                Err(no_file(alloc, self.word(), why, String::new(alloc)))
            }
        }
    }

    /// What its component is called: as the file without folder and `.wasm`, or as a part of a
    /// bundle.
    pub fn called(&self) -> &str {
        match &self.part {
            Some(part) => part.as_str(),
            None => component_name(self.name),
        }
    }

    /// The word of the command line that names it, or what it is called as a part of a bundle.
    pub fn word(&self) -> &str {
        match &self.part {
            Some(part) => part.as_str(),
            None => self.name,
        }
    }

    /// The fault of a component that is not valid, at its place in the file.
    fn not_valid(&self, alloc: Global, reason: FileReason) -> Fault {
        let FileReason::NotValid(fault) = reason else {
            let why = WhyNoFile::Reason(reason);
            return no_file(alloc, self.word(), why, String::new(alloc));
        };
        let tail = kept(alloc, valid_help(alloc, &self.shimmed.component, fault));
        let why = WhyNoFile::Reason(FileReason::NotValid(self.in_file(fault)));
        no_file(alloc, self.word(), why, tail)
    }

    /// A fault at the section and item of the file from which the component's come.
    fn in_file(&self, fault: ValidFault) -> ValidFault {
        match self.shimmed.places.place(fault.section, fault.item) {
            Some(Place { section, item }) => ValidFault {
                section,
                item,
                ..fault
            },
            None => fault,
        }
    }
}
