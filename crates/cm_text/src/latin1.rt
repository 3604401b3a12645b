//! Latin-1 (ISO/IEC 8859-1).

ghost use Rattle.cm_text.specs.Latin1.{HasLatin1, spell_latin1};

use crate::{Source, TextFault, sizes, writes};

/// Latin-1: one byte a scalar below 0x100, so that no bytes are ill-formed. Texts are only read
/// from it. Its alignment is that of the encoding `latin1+utf16`.
#[derive(Clone, Copy, Debug, PartialEq, Eq)]
pub struct Latin1;

impl Source for Latin1 {
    ghost use Rattle.cm_text.specs.Latin1Laws.{latin1_only_scalars, latin1_some_byte};
    ghost use Rattle.cm_text.specs.Latin1Laws.{latin1_one_spelling, latin1_units};

    ghost has = { HasLatin1 };

    ghost spell = { spell_latin1 };

    ghost UNIT_SIZE = { 1 };

    ghost ALIGNMENT = { 2 };

    const UNIT_SIZE: usize = 1;

    const ALIGNMENT: usize = 2;

    fn split_first(bytes: &[u8]) -> Option<(char, &[u8])> {
        match bytes {
            [byte, rest @ ..] => Some((char::from(*byte), rest)),
            [] => None,
        }
    }

    fn check(_bytes: &[u8]) -> Result<(), TextFault> {
        Ok(())
    }

    fn measure_utf8(bytes: &[u8]) -> Result<usize, TextFault> {
        Ok(sizes::latin1_in_utf8(bytes))
    }

    fn measure_utf16(bytes: &[u8]) -> Result<usize, TextFault> {
        Ok(2 * bytes.len())
    }

    fn write_utf8(bytes: &[u8], out: &mut [u8]) {
        writes::latin1_to_utf8(bytes, out);
    }

    fn write_utf16(bytes: &[u8], out: &mut [u8]) {
        writes::latin1_to_utf16(bytes, out);
    }

    ghost only_scalars = { latin1_only_scalars };

    ghost whole_units = { latin1_units };

    ghost some_byte = { λ c is. latin1_some_byte c };

    ghost one_spelling = { λ c d x y is_c is_d same. latin1_one_spelling c d x y same };
}
