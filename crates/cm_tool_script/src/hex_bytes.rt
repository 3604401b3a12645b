//! The bytes that a script writes, in hex digits.

ghost use Rattle.std.specs.Prelude.{◌≡◌, ◌≢◌, List, [], ℕ, Err, IsTrue, IfOk, IfErr};
ghost use Rattle.std.specs.Char.{is_ascii_hexdigit};
ghost use Rattle.std.specs.List.{list_all};
ghost use Rattle.cm_tool_script.specs.HexBytes.{ArePairs, Spells};
ghost use Rattle.cm_tool_script.specs.Faults.{script_fault_number};

use std::alloc::Global;
use thiserror::Error;

/// Why a text spells no bytes.
#[derive(Clone, Copy, Debug, Error)]
pub enum ScriptFault {
    /// The text is neither `-` nor one or more pairs of hex digits.
    #[error("two hex digits a byte, or - for none")]
    BadHex = 1,
    /// There was no memory for the bytes.
    #[error("no memory")]
    Memory = 2,
}

impl ScriptFault {
    /// The number by which the fault is known: 1 for `BadHex`, 2 for `Memory`.
    pub fn number(self) -> u8
        ensures { result ≡ script_fault_number self }
    {
        self as u8
    }
}

fn are_hex_digits(text: &[u8]) -> bool
    ensures { result ≡ list_all is_ascii_hexdigit text.now }
{
    text.iter().all(|digit| digit.is_ascii_hexdigit())
}

/// Whether a text is one or more pairs of hex digits.
fn is_pairs(text: &str) -> bool
    ensures some { IsTrue result → (bytes : List ℕ) × (bytes ≢ []) × ArePairs text.now bytes }
    ensures all { (bytes : List ℕ) → bytes ≢ [] → ArePairs text.now bytes → IsTrue result }
{
    if text.is_empty() {
        return false;
    }
    text.len() % 2 == 0 && are_hex_digits(text.as_bytes())
}

/// The bytes that a text spells: none for `-`, else one for each two hex digits, of either case,
/// the high four bits first.
///
/// Exactly the other texts, also the empty one, are refused with `BadHex`: those that are neither
/// `-` nor an even number, at least two, of hex digits. `Memory` comes where there is no memory for
/// the bytes.
pub fn script_bytes(alloc: Global, text: &str) -> Result<Vec<u8>, ScriptFault>
    ensures spelled { IfOk result (λ bytes. Spells text.now bytes.items) }
    ensures complete { (bytes : List ℕ)
        → Spells text.now bytes
        → IfErr result (λ e. e ≡ ScriptFault.Memory) }
    ensures refused { ((bytes : List ℕ) → Spells text.now bytes → ⊥)
        → result ≡ Err ScriptFault.BadHex }
{
    if text == "-" {
        return Ok(Vec::new(alloc));
    }
    if !is_pairs(text) {
        return Err(ScriptFault::BadHex);
    }
    match hex::decode(alloc, text) {
        Ok(bytes) => Ok(bytes),
        Err(_) => Err(ScriptFault::Memory),
    }
}
