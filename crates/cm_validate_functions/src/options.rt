//! What canonical options name.

ghost use Rattle.std.specs.Prelude.{◌≡◌};
ghost use Rattle.cm_validate_functions.specs.Options.{encoding_in, encoding_of, first_in};
ghost use Rattle.cm_validate_functions.specs.Options.{memory_in, post_return_in, realloc_in};

use cm_abi_model::StringEncoding;
use cm_binary_model::CanonOption;

fn encoding_in(option: &CanonOption) -> Option<StringEncoding>
    ensures { result ≡ encoding_in option.now }
{
    match option {
        CanonOption::Utf8 => Some(StringEncoding::Utf8),
        CanonOption::Utf16 => Some(StringEncoding::Utf16),
        CanonOption::Latin1Utf16 => Some(StringEncoding::Latin1OrUtf16),
        CanonOption::Memory(_) | CanonOption::Realloc(_) | CanonOption::PostReturn(_) => None,
    }
}

fn memory_in(option: &CanonOption) -> Option<u32>
    ensures { result ≡ memory_in option.now }
{
    match option {
        CanonOption::Memory(memory) => Some(*memory),
        _ => None,
    }
}

fn realloc_in(option: &CanonOption) -> Option<u32>
    ensures { result ≡ realloc_in option.now }
{
    match option {
        CanonOption::Realloc(func) => Some(*func),
        _ => None,
    }
}

fn post_return_in(option: &CanonOption) -> Option<u32>
    ensures { result ≡ post_return_in option.now }
{
    match option {
        CanonOption::PostReturn(func) => Some(*func),
        _ => None,
    }
}

/// The encoding of strings: UTF-8 where no option says more (CanonicalABI.md, "Canonical
/// Definitions").
pub fn encoding(options: &[CanonOption]) -> StringEncoding
    ensures { result ≡ encoding_of options.now }
{
    for option in options {
        if let Some(encoding) = encoding_in(option) {
            return encoding;
        }
    }
    StringEncoding::Utf8
}

/// The memory, by its index.
pub(crate) fn memory(options: &[CanonOption]) -> Option<u32>
    ensures { result ≡ first_in memory_in options.now }
{
    for option in options {
        if let Some(memory) = memory_in(option) {
            return Some(memory);
        }
    }
    None
}

/// The allocator.
pub(crate) fn realloc(options: &[CanonOption]) -> Option<u32>
    ensures { result ≡ first_in realloc_in options.now }
{
    for option in options {
        if let Some(func) = realloc_in(option) {
            return Some(func);
        }
    }
    None
}

/// The function that is called once a result was read.
pub(crate) fn post_return(options: &[CanonOption]) -> Option<u32>
    ensures { result ≡ first_in post_return_in options.now }
{
    for option in options {
        if let Some(func) = post_return_in(option) {
            return Some(func);
        }
    }
    None
}
