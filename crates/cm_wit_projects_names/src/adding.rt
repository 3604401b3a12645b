//! Putting things to the end of lists.

use std::alloc::AllocError;

/// Puts a thing to the end of a list. Refused only where there is no memory; the list is then what
/// it was.
pub fn put<T: Drop>(list: &mut Vec<T>, item: T) -> Result<(), AllocError> {
    match list.push(item) {
        Ok(()) => Ok(()),
        Err(_) => Err(AllocError),
    }
}
