//! Which canonical options are there.

ghost use Rattle.std.specs.Prelude.{◌≡◌};
ghost use Rattle.std.specs.List.{list_any};
ghost use Rattle.cm_validate_model.specs.Options.{is_latin1, is_memory, is_post_return, is_realloc};

use cm_binary_model::CanonOption;

fn is_memory(option: CanonOption) -> bool
    ensures { result ≡ is_memory option }
{
    matches!(option, CanonOption::Memory(_))
}

fn is_realloc(option: CanonOption) -> bool
    ensures { result ≡ is_realloc option }
{
    matches!(option, CanonOption::Realloc(_))
}

fn is_latin1(option: CanonOption) -> bool
    ensures { result ≡ is_latin1 option }
{
    matches!(option, CanonOption::Latin1Utf16)
}

fn is_post_return(option: CanonOption) -> bool
    ensures { result ≡ is_post_return option }
{
    matches!(option, CanonOption::PostReturn(_))
}

pub(crate) fn have_memory(options: &[CanonOption]) -> bool
    ensures { result ≡ list_any is_memory options.now }
{
    options.iter().any(|option| is_memory(*option))
}

pub(crate) fn have_realloc(options: &[CanonOption]) -> bool
    ensures { result ≡ list_any is_realloc options.now }
{
    options.iter().any(|option| is_realloc(*option))
}

pub(crate) fn have_latin1(options: &[CanonOption]) -> bool
    ensures { result ≡ list_any is_latin1 options.now }
{
    options.iter().any(|option| is_latin1(*option))
}

pub(crate) fn have_post_return(options: &[CanonOption]) -> bool
    ensures { result ≡ list_any is_post_return options.now }
{
    options.iter().any(|option| is_post_return(*option))
}
