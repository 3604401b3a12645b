//! The numbers of scripts: decimal, with no sign and no leading zero.

ghost use Rattle.std.specs.Prelude.{◌≡◌, ◌^◌, ◌<◌, ◌↔◌, ℕ, IsTrue, IfSome, Some};
ghost use Rattle.std.specs.Fmt.{decimal};
ghost use Rattle.std.specs.Char.{is_ascii_digit};
ghost use Rattle.std.specs.List.{list_all};
ghost use Rattle.cm_tool_script.specs.Numbers.{IsDecimal};

fn are_digits(text: &[u8]) -> bool
    ensures { result ≡ list_all is_ascii_digit text.now }
{
    text.iter().all(|d| d.is_ascii_digit())
}

/// Whether a text is one or more digits, of which the first is no zero where there are more.
fn is_decimal(text: &str) -> bool
    ensures { IsTrue result ↔ IsDecimal text.now }
{
    match text.as_bytes() {
        [] => false,
        [b'0', _, ..] => false,
        digits => are_digits(digits),
    }
}

/// The number that a word is, at most 4,294,967,295; `None` where the word is not the decimal
/// digits of such a number, with no sign and no leading zero.
pub fn read_u32(word: &str) -> Option<u32>
    ensures read { IfSome result (λ n. word.now ≡ decimal n) }
    ensures complete { (n : ℕ) → n < 2 ^ 32 → word.now ≡ decimal n → result ≡ Some n }
{
    if is_decimal(word) {
        word.parse::<u32>().ok()
    } else {
        None
    }
}

/// The number that a word is, at most 18,446,744,073,709,551,615; `None` where the word is not the
/// decimal digits of such a number, with no sign and no leading zero.
pub fn read_u64(word: &str) -> Option<u64>
    ensures read { IfSome result (λ n. word.now ≡ decimal n) }
    ensures complete { (n : ℕ) → n < 2 ^ 64 → word.now ≡ decimal n → result ≡ Some n }
{
    if is_decimal(word) {
        word.parse::<u64>().ok()
    } else {
        None
    }
}
