//! When bytes that were gathered are fed. These are hints: nothing is promised of them but that no
//! more bytes are fed than there are.

ghost use Rattle.std.specs.Prelude.{◌≡◌, ◌≤◌, length, drop};

use cm_binary_model::{COMPONENT_PREAMBLE, MAX_FILE_BYTES};
use cm_leb::LebFault;
use cm_leb::formats::front_u32;

/// How many of the bytes gathered are fed, and how many are to be gathered behind them before more
/// are.
#[derive(Clone, Copy)]
pub(crate) struct Feeding {
    pub fed: usize,
    pub wanted: usize,
}

/// What is fed of bytes that begin in a file where `position` bytes of it were read: the preamble
/// and the sections that are whole. A section that goes past the limit of files is fed where more
/// bytes of it are there than there may be, and a size that is none as it stands.
pub(crate) fn next_feeding(bytes: &[u8], position: usize) -> Feeding
    ensures fed { result.fed ≤ length bytes.now }
    ensures few { result.wanted ≤ 16_777_217 }
{
    let preamble = if position == 0 {
        COMPONENT_PREAMBLE.len().min(bytes.len())
    } else {
        0
    };
    let whole = preamble + whole_length(&bytes[preamble..]);
    let begun = &bytes[whole..];
    let limit = (MAX_FILE_BYTES + 1).saturating_sub(position.saturating_add(whole));
    let wanted = section_length(begun).min(limit);
    Feeding {
        fed: if begun.len() < wanted {
            whole
        } else {
            bytes.len()
        },
        wanted,
    }
}

/// How many bytes the sections at the front take that are whole.
fn whole_length(bytes: &[u8]) -> usize
    ensures { result ≤ length bytes.now }
{
    let mut whole = 0;
    while whole < bytes.len() {
        let length = section_length(&bytes[whole..]);
        if bytes.len() - whole < length {
            break;
        }
        whole += length;
    }
    whole
}

/// How many bytes the section at the front takes by its size. Where the size is not all there yet,
/// this is more than there are; where it is no number, it is all of them.
fn section_length(bytes: &[u8]) -> usize
    ensures { 1 ≤ result }
{
    match bytes {
        [] => 1,
        [_, behind @ ..] => match front_u32(behind) {
            Ok((size, contents)) => {
                let header = behind.len().saturating_sub(contents.len());
                header.saturating_add(1 + size as usize)
            }
            Err(LebFault::Truncated) => bytes.len().saturating_add(1),
            Err(LebFault::TooLong | LebFault::BadLastBits) => bytes.len(),
        },
    }
}

/// Drops so many bytes at the front. What is left is moved once.
pub(crate) fn drop_front(bytes: &mut Vec<u8>, count: usize)
    requires { count ≤ length bytes.old.items }
    ensures { bytes.new.items ≡ drop count bytes.old.items }
{
    let left = bytes.len() - count;
    bytes.copy_within(count.., 0);
    bytes.truncate(left);
}
