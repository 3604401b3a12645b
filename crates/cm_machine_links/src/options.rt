//! The options of canonical definitions.

ghost use Rattle.std.specs.Prelude.{◌≡◌};
ghost use Rattle.cm_machine_parts.specs.Links.{side_in};
ghost use Rattle.cm_machine_links.specs.Planning.{encoding_in, encoding_of, first_in};
ghost use Rattle.cm_machine_links.specs.Planning.{post_return_in, realloc_in, side_of};

use cm_abi_model::StringEncoding;
use cm_binary_model::CanonOption;
use cm_machine_parts::LiftLowerOptions;

/// How the side of a lift or a lower with these options passes values (CanonicalABI.md,
/// `LiftLowerOptions`).
pub(crate) fn lift_lower_options(options: &[CanonOption]) -> LiftLowerOptions
    ensures { side_in result ≡ side_of options.now }
{
    LiftLowerOptions {
        encoding: encoding(options),
        realloc: realloc(options),
    }
}

/// The encoding that an option names, if it is one that does.
fn encoding_in(option: &CanonOption) -> Option<StringEncoding>
    ensures { result ≡ encoding_in option.now }
{
    match option {
        CanonOption::Utf8 => Some(StringEncoding::Utf8),
        CanonOption::Utf16 => Some(StringEncoding::Utf16),
        CanonOption::Latin1Utf16 => Some(StringEncoding::Latin1OrUtf16),
        CanonOption::Memory(_) | CanonOption::Realloc(_) | CanonOption::PostReturn(_) => None,
    }
}

/// The allocator that an option names, if it is one that does.
fn realloc_in(option: &CanonOption) -> Option<u32>
    ensures { result ≡ realloc_in option.now }
{
    match option {
        CanonOption::Realloc(func) => Some(*func),
        CanonOption::Utf8
        | CanonOption::Utf16
        | CanonOption::Latin1Utf16
        | CanonOption::Memory(_)
        | CanonOption::PostReturn(_) => None,
    }
}

/// The function that an option names to be called once a result was read, if it is one that does.
fn post_return_in(option: &CanonOption) -> Option<u32>
    ensures { result ≡ post_return_in option.now }
{
    match option {
        CanonOption::PostReturn(func) => Some(*func),
        CanonOption::Utf8
        | CanonOption::Utf16
        | CanonOption::Latin1Utf16
        | CanonOption::Memory(_)
        | CanonOption::Realloc(_) => None,
    }
}

fn encoding(options: &[CanonOption]) -> StringEncoding
    ensures { result ≡ encoding_of options.now }
{
    for option in options {
        if let Some(encoding) = encoding_in(option) {
            return encoding;
        }
    }
    StringEncoding::Utf8
}

fn realloc(options: &[CanonOption]) -> Option<u32>
    ensures { result ≡ first_in realloc_in options.now }
{
    for option in options {
        if let Some(func) = realloc_in(option) {
            return Some(func);
        }
    }
    None
}

/// The function that is called once the result of a lift with these options was read.
pub(crate) fn post_return(options: &[CanonOption]) -> Option<u32>
    ensures { result ≡ first_in post_return_in options.now }
{
    for option in options {
        if let Some(func) = post_return_in(option) {
            return Some(func);
        }
    }
    None
}
