//! Faults as objects.

use crate::fault::{Fault, WhyNoFile};
use crate::trouble::Trouble;
use cm_hux_json::{Object, Value, first_word};
use cm_stubs::StubFault;
use cm_tool_commands::{
    Asked, Fault as ToolFault, FileReason, LinkFault, Unfit, UnfitReason, ValidFault,
};
use std::alloc::{AllocError, Global};
use std::io::Write;
use std::str;

/// A fault as an object: its name, with kind, number and meaning where it is a reason of a kind;
/// its place, as `file`, `at`, `section`, `item`, `component`, `import` and `line`; the exit status
/// that it has alone; and as `text` what the line on standard error says. What does not apply is
/// not there.
///
/// `AllocError` comes where there is no memory.
pub fn fault_object(alloc: Global, fault: &Fault) -> Result<Value, AllocError> {
    let object = with_fault(Object::new(alloc), fault)?;
    let object = object.with("status", fault.ending().status())?;
    let text = format!(in alloc; "{fault}")?;
    Ok(object.with("text", bare(text.as_str()))?.value())
}

/// Writes a fault as a line, `{"fault":{..}}`.
pub fn tell_fault<O: Write>(alloc: Global, fault: &Fault, out: &mut O) -> Result<(), Fault> {
    let object = Object::new(alloc).with("fault", fault_object(alloc, fault)?)?;
    tell(object, out)?;
    out.flush()?;
    Ok(())
}

/// Writes an object as a line.
pub fn tell<O: Write>(object: Object, out: &mut O) -> Result<(), Fault> {
    let line = object.line()?;
    out.write_all(line.as_bytes())?;
    Ok(())
}

/// Writes a text as an object of one member in a line; of bytes that are no text an empty one.
pub fn tell_bytes<O: Write>(
    alloc: Global,
    name: &str,
    bytes: &[u8],
    out: &mut O,
) -> Result<(), Fault> {
    let text = str::from_utf8(bytes).unwrap_or("");
    tell(Object::new(alloc).with(name, text)?, out)?;
    out.flush()?;
    Ok(())
}

/// A text without the word that begins a line on standard error, and without blanks behind it.
fn bare(text: &str) -> &str {
    let text = text.trim_end();
    text.strip_prefix("error: ").unwrap_or(text)
}

fn with_fault(object: Object, fault: &Fault) -> Result<Object, AllocError> {
    match fault {
        Fault::Usage(_) => object.with("name", "Usage"),
        Fault::File { name, why, .. } => with_no_file(object, name.as_str(), why),
        Fault::Stub(fault) => with_stub_fault(object, fault),
        Fault::Bundle(trouble) => with_trouble(object, trouble),
        Fault::Unwritten { name, .. } => object.with("name", "Write")?.with("file", name.as_str()),
        Fault::Input => object.with("name", "Input"),
        Fault::Moves { limit } => object.with("name", "Limit")?.with("limit", *limit),
        Fault::Refused(text) => {
            let line = line_number(text.as_str());
            object.with("name", "Refused")?.with("line", line)
        }
        Fault::Tool(fault) => with_tool_fault(object, fault),
        Fault::Memory => object.with("name", "Memory"),
        Fault::Output => object.with("name", "Write"),
    }
}

/// A component file that is not what is wanted.
fn with_no_file(object: Object, name: &str, why: &WhyNoFile) -> Result<Object, AllocError> {
    let object = object.with("file", name)?;
    match why {
        WhyNoFile::Reason(reason) => with_file_reason(object, reason),
        WhyNoFile::Plain(fault) => {
            let number = fault.reason.number();
            let object = object.with_derived("ShimReason", &fault.reason, number)?;
            with_item(object, fault.section, fault.item)
        }
        WhyNoFile::Limit(fault) => object.with_derived("LimitFault", fault, fault.number()),
        WhyNoFile::Unmet(fault) => {
            let number = fault.reason.number();
            let object = object.with_derived("FitReason", &fault.reason, number)?;
            object.with("want", fault.want)
        }
    }
}

fn with_item(object: Object, section: usize, item: usize) -> Result<Object, AllocError> {
    object.with("section", section)?.with("item", item)
}

fn with_valid_fault(object: Object, fault: &ValidFault) -> Result<Object, AllocError> {
    let reason = fault.reason;
    let object = object.with_reason("ValidReason", reason.name(), reason.number(), &reason)?;
    with_item(object, fault.section, fault.item)
}

fn with_link_fault(object: Object, fault: &LinkFault) -> Result<Object, AllocError> {
    let reason = fault.reason;
    let object = object.with_reason("LinkReason", reason.name(), reason.number(), &reason)?;
    let object = object.with("component", fault.component)?;
    object.with("import", fault.import)
}

/// A fault of a stub. Where it stands for that of a component or of links, that is written.
fn with_stub_fault(object: Object, fault: &StubFault) -> Result<Object, AllocError> {
    match fault {
        StubFault::Component { component, fault } => {
            with_valid_fault(object.with("component", *component)?, fault)
        }
        StubFault::NotValid(fault) => with_valid_fault(object, fault),
        StubFault::NotLinked(fault) => with_link_fault(object, fault),
        _ => object.with_derived("StubFault", fault, fault.number()),
    }
}

fn with_trouble(object: Object, trouble: &Trouble) -> Result<Object, AllocError> {
    match trouble {
        Trouble::NotMade(fault) => object.with_shown("meaning", fault)?.with("name", "NotMade"),
        Trouble::ImportsType { component } => object
            .with("name", "ImportsType")?
            .with("component", *component),
        Trouble::NoBundle { name, fault } => {
            let number = fault.reason.number();
            let object = object.with_derived("BundleReason", &fault.reason, number)?;
            object.with("file", name.as_str())?.with("at", fault.at)
        }
        Trouble::OtherLinks { name, .. } => {
            let object = object.with("name", "OtherLinks")?;
            object.with("file", name.as_str())
        }
        Trouble::Memory => object.with("name", "Memory"),
    }
}

fn with_tool_fault(object: Object, fault: &ToolFault) -> Result<Object, AllocError> {
    match fault {
        ToolFault::Usage(_) => object.with("name", "Usage"),
        ToolFault::Memory => object.with("name", "Memory"),
        ToolFault::File { name, reason, .. } => {
            with_file_reason(object.with("file", name.as_str())?, reason)
        }
        ToolFault::Show { name, fault } => {
            let object = object.with_derived("ShowFault", fault, fault.number())?;
            object.with("file", name.as_str())
        }
        ToolFault::Unfit {
            wit,
            world,
            file,
            reason,
            ..
        } => with_unfit(object, &Asked { wit, world, file }.unfit(*reason)),
        ToolFault::Link { fault, .. } => with_link_fault(object, fault),
        ToolFault::Script(_) => with_line(object.with("name", "Script")?, fault),
        ToolFault::Set { misuse, .. } => object.with_derived("Misuse", misuse, misuse.number()),
        ToolFault::Begin { misuse, drive } => {
            let object = object.with_derived("Misuse", misuse, misuse.number())?;
            object.with("drive", drive.index)?.with("root", drive.root)
        }
        ToolFault::Limit { limit, drive } => {
            let object = object.with("name", "Limit")?.with("limit", *limit)?;
            object.with("drive", drive.index)?.with("root", drive.root)
        }
        ToolFault::Output => object.with("name", "Write"),
    }
}

/// With the line of a script, whose number stands in what the fault is shown as.
fn with_line(object: Object, fault: &ToolFault) -> Result<Object, AllocError> {
    let shown = object.shown(fault)?;
    let line = line_number(shown.as_str());
    object.with("line", line)
}

fn line_number(shown: &str) -> Option<u64> {
    let rest = shown.strip_prefix("script line ")?;
    let (digits, _) = rest.split_once(':')?;
    digits.parse::<u64>().ok()
}

fn with_file_reason(object: Object, reason: &FileReason) -> Result<Object, AllocError> {
    match reason {
        FileReason::Unread(fault) => {
            object.with_reason("FileFault", fault.name(), fault.number(), fault)
        }
        FileReason::NoComponent { fault, .. } => {
            let number = fault.reason.number();
            let object = object.with_derived("DecodeReason", &fault.reason, number)?;
            object.with("at", fault.at)
        }
        FileReason::NotValid(fault) => with_valid_fault(object, fault),
        FileReason::NoText(fault) => {
            let shown = object.shown(fault)?;
            let name = first_word(shown.as_str());
            let object = object.with("kind", "TextFileFault")?.with("name", name)?;
            object
                .with("number", fault.number())?
                .with("at", fault.place())
        }
    }
}

fn with_unfit(object: Object, unfit: &Unfit<'_>) -> Result<Object, AllocError> {
    match &unfit.reason {
        UnfitReason::Wit(fault) => {
            let reason = fault.reason;
            let (name, number) = (reason.name(), reason.number());
            let object = object.with_reason("WitReason", name, number, &reason)?;
            object.with("file", unfit.wit)?.with("at", fault.at)
        }
        UnfitReason::World(fault) => {
            let object = object.with_derived("WorldFault", fault, fault.number())?;
            object.with("file", unfit.wit)?.with("world", unfit.world)
        }
        UnfitReason::Signature(fault) => {
            let number = fault.reason.number();
            let object = object.with_derived("ConformReason", &fault.reason, number)?;
            let object = object.with("file", unfit.file)?.with("world", unfit.world)?;
            object.with_shown("where", &fault.item)
        }
        UnfitReason::Memory => object.with("name", "Memory")?.with("file", unfit.file),
    }
}
