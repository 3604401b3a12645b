//! Laws of component files.

ghost use Rattle.std.specs.Prelude.{◌≡◌, ◌≢◌, ℕ, List, ◌++◌, length, Result};
ghost use Rattle.cm_binary_model.specs.Trees.{SectionTree};
ghost use Rattle.cm_binary_forms.specs.declared.fault.DecodeFault.{DecodeFault};
ghost use Rattle.cm_binary_forms.specs.declared.fault.DecodeReason.{DecodeReason};
ghost use Rattle.cm_binary_forms.specs.declared.fault.DecodeReason.TheVariants as reasons;
ghost use Rattle.cm_binary_forms.specs.File.{FirstFault};
ghost use Rattle.cm_binary.specs.Answers.{AreBytes, IsOnlyAnswer};

/// A first fault stays the first fault whatever follows the bytes, unless it is that the input ends
/// too early.
pub fn first_fault_stays()
    ensures { (bytes more : List ℕ) (at : ℕ) (reason : DecodeReason) → AreBytes (bytes ++ more)
        → reason ≢ reasons.Truncated → FirstFault bytes at reason
        → FirstFault (bytes ++ more) at reason }
{}

/// Bytes spell exactly one component and have no first fault, or spell none and have exactly one.
pub fn files_are_told_apart()
    ensures { (bytes : List ℕ) → AreBytes bytes
        → (answer : Result (List SectionTree) DecodeFault) × IsOnlyAnswer bytes answer }
{}

/// Where the first fault is that the input ends too early, it stands at the input's end.
pub fn truncated_stands_at_the_end()
    ensures { (bytes : List ℕ) (at : ℕ) → FirstFault bytes at reasons.Truncated
        → at ≡ length bytes }
{}
