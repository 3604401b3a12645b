//! The faults of texts and projects, as lines.

use cm_hux_play::files::{
    Asked, Escaped, Fault, ToolFault, UnfitReason, kept, wit_help, world_help,
};
use cm_wit_projects_signature::{
    ResolveFault, SignatureFault, Source, WitFault, WitReason, line_place,
};
use cm_wit_worlds::WorldFault;
use std::alloc::{AllocError, Global};

/// The most bytes of a word that are shown.
const MAX_SHOWN: usize = 60;

/// The fault of a text that has no such world, with what it has.
pub(crate) fn unfit(alloc: Global, text: &str, asked: Asked<'_>, reason: UnfitReason) -> Fault {
    let tail = match reason {
        UnfitReason::Wit(fault) => kept(alloc, wit_help(alloc, text, fault)),
        UnfitReason::World(fault) => kept(alloc, world_help(alloc, text, fault)),
        UnfitReason::Signature(_) | UnfitReason::Memory => String::new(alloc),
    };
    Fault::Tool(ToolFault::unfit(alloc, asked.unfit(reason), tail))
}

/// The fault of a project whose world has no signature.
pub(crate) fn no_signature(
    alloc: Global,
    groups: &[&[Source<'_>]],
    asked: Asked<'_>,
    fault: SignatureFault,
) -> Fault {
    let fault = match fault {
        SignatureFault::At(fault) => return at_fault(alloc, groups, asked, fault),
        SignatureFault::NoSuchWorld => WorldFault::NoSuchWorld,
        SignatureFault::NoSuchType => WorldFault::NoSuchType,
        SignatureFault::TooLarge => WorldFault::TooLarge,
        SignatureFault::Memory => return Fault::Memory,
    };
    let reason = UnfitReason::World(fault);
    Fault::Tool(ToolFault::unfit(alloc, asked.unfit(reason), String::new(alloc)))
}

/// The fault of a project, at a byte of a file: the name of the file is shown with the line and the
/// column, both from 1.
pub(crate) fn at_fault(
    alloc: Global,
    groups: &[&[Source<'_>]],
    asked: Asked<'_>,
    fault: ResolveFault,
) -> Fault {
    let Some(source) = source_at(groups, fault) else {
        return Fault::Memory;
    };
    if fault.fault.reason == WitReason::Memory {
        return Fault::Memory;
    }
    match place_of(alloc, source, fault.fault) {
        Ok(place) => at_place(alloc, place.as_str(), source.text, asked, fault.fault),
        Err(AllocError) => Fault::Memory,
    }
}

/// The file in which a fault is.
fn source_at<'a>(groups: &[&[Source<'a>]], fault: ResolveFault) -> Option<Source<'a>> {
    let sources = groups.get(fault.folder)?;
    sources.get(fault.file).copied()
}

/// The place of a fault, as compilers name it.
fn place_of(alloc: Global, source: Source<'_>, fault: WitFault) -> Result<String, AllocError> {
    let place = line_place(source.text, fault.at);
    format!(in alloc; "{}:{}:{}", source.name, place.line, place.column)
}

fn at_place(alloc: Global, place: &str, text: &str, asked: Asked<'_>, fault: WitFault) -> Fault {
    let asked = Asked {
        wit: place,
        ..asked
    };
    let unfit = asked.unfit(UnfitReason::Wit(fault));
    Fault::Tool(ToolFault::unfit(alloc, unfit, kept(alloc, found_at(alloc, text, fault.at))))
}

/// What stands at a byte of a text.
fn found_at(alloc: Global, text: &str, at: usize) -> Result<String, AllocError> {
    let word = first_word(text.get(at..).unwrap_or(""));
    if word.is_empty() {
        return String::from_str(alloc, ": found the end of the text");
    }
    if word.len() > MAX_SHOWN {
        let length = word.len();
        return format!(in alloc; ": found a word of {length} letters");
    }
    format!(in alloc; ": found \"{}\"", Escaped(word))
}

/// The word that a text begins with, or its first character where it begins with none.
fn first_word(text: &str) -> &str {
    let length = match text.find(is_no_letter) {
        Some(0) => first_length(text),
        Some(length) => length,
        None => text.len(),
    };
    text.get(..length).unwrap_or("")
}

fn first_length(text: &str) -> usize {
    match text.chars().next() {
        Some(first) => first.len_utf8(),
        None => 0,
    }
}

fn is_no_letter(c: char) -> bool {
    !c.is_ascii_alphanumeric() && c != '-'
}
