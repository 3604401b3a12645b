//! Characters and text in quotes.

ghost use Rattle.std.specs.Prelude.{◌≡◌, ◌<◌, ◌/◌, ◌%◌, ◌++◌, ◌∷◌, [], codes};
ghost use Rattle.std.specs.List.{flat_map};
ghost use Rattle.std.specs.Str.{chars as characters};
ghost use Rattle.cm_values.specs.Quotes.{hex_digit, in_quotes, quoted};
ghost use Rattle.cm_values.specs.Written.{Writes};

use std::alloc::AllocError;

fn hex_digit(digit: u8) -> u8
    requires { digit < 16 }
    ensures { result ≡ hex_digit digit }
{
    if digit < 10 {
        b'0' + digit
    } else {
        b'a' - 10 + digit
    }
}

/// Adds the number of a character that is not to be seen.
fn put_code(out: &mut String, code: u8) -> Result<(), AllocError>
    requires { code < 256 }
    ensures { Writes (codes "\\u{" ++ hex_digit (code / 16) ∷ hex_digit (code % 16) ∷ codes "}")
        out.old out.new result }
{
    out.push_str("\\u{")?;
    out.push(hex_digit(code / 16) as char)?;
    out.push(hex_digit(code % 16) as char)?;
    out.push_str("}")
}

/// Adds a character between two such quotes.
fn put_in_quotes(out: &mut String, quote: char, character: char) -> Result<(), AllocError>
    requires { quote < 128 }
    ensures { Writes (in_quotes quote character) out.old out.new result }
{
    if character == quote || character == '\\' {
        out.push('\\')?;
        return out.push(character);
    }
    match character {
        '\t' => out.push_str("\\t"),
        '\n' => out.push_str("\\n"),
        '\r' => out.push_str("\\r"),
        '\0'..='\x1f' | '\x7f' => put_code(out, character as u8),
        _ => out.push(character),
    }
}

/// Adds a character in its quotes.
pub fn put_char(out: &mut String, character: char) -> Result<(), AllocError>
    ensures { Writes (quoted 0x27 (character ∷ [])) out.old out.new result }
{
    out.push('\'')?;
    put_in_quotes(out, '\'', character)?;
    out.push('\'')
}

/// Adds a text in its quotes.
pub fn put_text(out: &mut String, text: &str) -> Result<(), AllocError>
    ensures { Writes (quoted 0x22 (characters text.now)) out.old out.new result }
{
    out.push('"')?;
    put_characters(out, text)?;
    out.push('"')
}

fn put_characters(out: &mut String, text: &str) -> Result<(), AllocError>
    ensures { Writes (flat_map (in_quotes 0x22) (characters text.now)) out.old out.new result }
{
    for character in text.chars() {
        put_in_quotes(out, '"', character)?;
    }
    Ok(())
}
