//! The requests for one part.

ghost use Rattle.std.specs.Prelude.{◌≡◌, ◌*◌, ◌<◌, ◌^◌, ◌++◌, ◌∷◌, [], OnOk};
ghost use Rattle.cm_abi_model.specs.Requests.{chain, shrunk, text_sizes};
ghost use Rattle.cm_abi_model.specs.RecordRequests.{first_request, further_request};
ghost use Rattle.cm_abi_requests.specs.Asking.{charset_seen, grown};

use crate::charsets::Charset;
use cm_abi_model::Request;
use std::alloc::AllocError;

/// Asks for so many bytes, and hands nothing back.
pub(crate) fn ask_first(
    requests: &mut Vec<Request>,
    align: u32,
    size: u32,
) -> Result<(), AllocError>
    ensures { OnOk result
        (requests.new.items ≡ requests.old.items ++ first_request align size ∷ []) }
{
    requests.push(Request {
        chained: false,
        old_size: 0,
        align,
        size,
    })?;
    Ok(())
}

/// Asks for so many bytes in the place of those that were asked for just before.
fn ask_again(
    requests: &mut Vec<Request>,
    align: u32,
    old_size: u32,
    size: u32,
) -> Result<(), AllocError>
    ensures { OnOk result
        (requests.new.items ≡ requests.old.items ++ further_request align old_size size ∷ []) }
{
    requests.push(Request {
        chained: true,
        old_size,
        align,
        size,
    })?;
    Ok(())
}

/// Asks for so many bytes, then for as many as are kept, where those are fewer.
fn ask_shrinking(
    requests: &mut Vec<Request>,
    align: u32,
    size: u32,
    exact: u32,
) -> Result<(), AllocError>
    ensures { OnOk result
        (requests.new.items ≡ requests.old.items ++ chain align (shrunk size exact)) }
{
    ask_first(requests, align, size)?;
    if exact < size {
        ask_again(requests, align, size, exact)?;
    }
    Ok(())
}

/// Asks for a byte a unit; where that is too little for as many as are kept, for the most that
/// there may be, and then, where those are fewer, for as many as are kept.
fn ask_growing(
    requests: &mut Vec<Request>,
    align: u32,
    units: u32,
    most: u32,
    exact: u32,
) -> Result<(), AllocError>
    ensures { OnOk result
        (requests.new.items ≡ requests.old.items ++ chain align (grown units most exact)) }
{
    ask_first(requests, align, units)?;
    if units < exact {
        ask_again(requests, align, units, most)?;
        if exact < most {
            ask_again(requests, align, most, exact)?;
        }
    }
    Ok(())
}

/// Asks for a string that has so many units in its source and takes so many bytes.
pub(crate) fn ask_sizes(
    requests: &mut Vec<Request>,
    align: u32,
    source: Charset,
    target: Charset,
    units: u32,
    exact: u32,
) -> Result<(), AllocError>
    requires fits { 3 * units < 2 ^ 32 }
    ensures { OnOk result
        (requests.new.items ≡ requests.old.items
        ++ chain align (text_sizes (charset_seen source) (charset_seen target) units exact)) }
{
    match (source, target) {
        (Charset::Utf8, Charset::Utf16) => ask_shrinking(requests, align, 2 * units, exact),
        (Charset::Utf16, Charset::Utf8) => ask_growing(requests, align, units, 3 * units, exact),
        (Charset::Latin1, Charset::Utf8) => ask_growing(requests, align, units, 2 * units, exact),
        _ => ask_first(requests, align, exact),
    }
}
