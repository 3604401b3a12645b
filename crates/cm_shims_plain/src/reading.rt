//! Component files that may have shims, read as plain components.

ghost use Rattle.std.specs.Prelude.{◌⊎◌, ◌≡◌, List, Result, map};
ghost use Rattle.cm_binary_grammar.specs.declared.fault.End.TheVariants as end;
ghost use Rattle.cm_binary_model.specs.Trees.{SectionTree};
ghost use Rattle.cm_binary_forms.specs.declared.fault.DecodeReason.TheVariants as reasons;
ghost use Rattle.cm_shims_plain.specs.File.{wide_file};
ghost use Rattle.cm_shims_plain.specs.Trees.{wide_section_tree};
ghost use Rattle.cm_shims_plain.specs.declared.fault.ShimFault.{ShimFault};
ghost use Rattle.cm_shims_plain.specs.declared.wants.Want.{Want};
ghost use Rattle.cm_shims_plain.specs.Origins.{Origin};
ghost use Rattle.cm_shims_plain.specs.Reading.{ComesTo, IsMemory, IsReadAs, component_of};
ghost use Rattle.cm_shims_plain.specs.Reading.{memory_fault, outcome};

use crate::fault::ShimFault;
use crate::file::read_wide_file;
use crate::parts::WideSection;
use crate::places::Places;
use crate::plain::plain_of_file;
use crate::stop::Stop;
use crate::wants::Want;
use cm_binary_forms::{DecodeFault, DecodeReason};
use cm_binary_grammar::ReadError;
use cm_binary_model::Component;
use std::alloc::Global;

/// What a file that may have shims is read as.
#[derive(Drop)]
pub struct Shimmed {
    /// The plain component that the file stands for.
    pub component: Component,
    /// What its shims say of the types of functions and types of that component.
    pub wants: Vec<Want>,
    /// Where the sections and items of that component come from in the file.
    pub places: Places,
}

/// The plain component that a component file stands for which may have shims, and types that it
/// imports as equal to others (Binary.md). A shim goes, and an instance of it becomes one of the
/// functions and types that it exports; a type that is imported goes, and stands for the type that
/// it is equal to.
///
/// Bytes that spell no such file get the first fault in reading order, at its byte (`Decode`), as
/// `decode` of `cm_binary` has it. Of a file, the first item that cannot be followed is at fault
/// (`Plain`); then the limits of files that the plain component does not keep (`Limit`).
pub fn read(alloc: Global, bytes: &[u8]) -> Result<Shimmed, ShimFault>
    // What is answered, the bytes are read as.
    ensures right { IsMemory result ⊎ IsReadAs bytes.now (outcome result) }
    // What the bytes are read as is answered, unless memory runs out.
    ensures only { (answer : Result (List SectionTree × List Want × List Origin) ShimFault)
        → IsReadAs bytes.now answer → IsMemory result ⊎ (outcome result ≡ answer) }
{
    read_component(alloc, bytes)
}

/// What was refused for want of memory.
fn no_memory() -> ShimFault
    ensures { result ≡ memory_fault }
{
    ShimFault::Decode(DecodeFault {
        at: 0,
        reason: DecodeReason::Memory,
    })
}

/// The component that the bytes come to.
fn read_component(alloc: Global, bytes: &[u8]) -> Result<Shimmed, ShimFault>
    ensures { ComesTo bytes.now result (wide_file.reads (end.Cut reasons.Truncated) bytes.now) }
{
    match read_wide_file(alloc, bytes) {
        Ok(sections) => component_of(alloc, sections),
        Err(ReadError::Fault(fault)) => Err(ShimFault::Decode(DecodeFault {
            at: bytes.len() - fault.left,
            reason: fault.reason,
        })),
        Err(ReadError::Memory) => Err(no_memory()),
    }
}

/// The component that a file with these sections comes to.
fn component_of(alloc: Global, sections: Vec<WideSection>) -> Result<Shimmed, ShimFault>
    ensures { IsMemory result
        ⊎ (outcome result ≡ component_of (map wide_section_tree sections.items)) }
{
    match plain_of_file(alloc, sections) {
        Ok(plain) => match Component::new(plain.sections) {
            Ok(component) => Ok(Shimmed {
                component,
                wants: plain.wants,
                places: Places {
                    sources: plain.sources,
                },
            }),
            Err(fault) => Err(ShimFault::Limit(fault)),
        },
        Err(Stop::Fault(fault)) => Err(ShimFault::Plain(fault)),
        Err(Stop::Memory) => Err(no_memory()),
    }
}
