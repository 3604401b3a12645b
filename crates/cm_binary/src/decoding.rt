//! Reading component files.

ghost use Rattle.std.specs.Prelude.{◌≡◌, ℕ, ◌⊎◌, List, IfOk, IfErr};
ghost use Rattle.cm_binary_grammar.specs.declared.fault.End.TheVariants as end;
ghost use Rattle.cm_binary_model.specs.Trees.{SectionTree};
ghost use Rattle.cm_binary_forms.specs.declared.fault.DecodeReason.{DecodeReason};
ghost use Rattle.cm_binary_forms.specs.declared.fault.DecodeReason.TheVariants as reasons;
ghost use Rattle.cm_binary_forms.specs.File.{file, Spells, FirstFault};
ghost use Rattle.cm_binary.specs.Answers.{Accepts, Refuses, Answers};

use cm_binary_forms::{DecodeFault, DecodeReason, read_file};
use cm_binary_grammar::ReadError;
use cm_binary_model::{Component, component_within_limits};
use std::alloc::Global;

/// Reads a component file (Binary.md), whose bytes these are, all of them.
///
/// Of the standard's forms all are carried but floats, core types, nested components, values and
/// start functions. At every other form of the standard the fault is `Unsupported`, at the byte
/// that names it. [`DecodeReason`] says at which byte each other fault is.
pub fn decode(alloc: Global, bytes: &[u8]) -> Result<Component, DecodeFault>
    // What is read is spelled so.
    ensures found { IfOk result (λ c. Spells c bytes.now) }
    // What is spelled so is read, unless memory runs out.
    ensures only { (c : List SectionTree) → Spells c bytes.now → Accepts result c }
    // A fault is the first one, at its place.
    ensures fault { IfErr result
        (λ f. (f.reason ≡ reasons.Memory) ⊎ FirstFault bytes.now f.at f.reason) }
    // The first fault is given, unless memory runs out.
    ensures first { (at : ℕ) (reason : DecodeReason) → FirstFault bytes.now at reason
        → Refuses result at reason }
{
    read_component(alloc, bytes)
}

/// The component that the bytes spell.
fn read_component(alloc: Global, bytes: &[u8]) -> Result<Component, DecodeFault>
    ensures { Answers bytes.now result (file.reads (end.Cut reasons.Truncated) bytes.now) }
{
    match read_file(alloc, bytes) {
        Ok(sections) => Ok(component_within_limits(sections)),
        Err(ReadError::Fault(fault)) => Err(DecodeFault {
            at: bytes.len() - fault.left,
            reason: fault.reason,
        }),
        Err(ReadError::Memory) => Err(DecodeFault {
            at: 0,
            reason: DecodeReason::Memory,
        }),
    }
}
