//! Sets of what is linked.

use cm_hux_files::{Fault, Linked, ToolFault};
use cm_machine::Set;
use cm_tool_lines::SetSize;
use std::alloc::Global;

/// A set of what is linked, with so many pages of memory for each component.
pub fn make_set(alloc: Global, linked: &Linked<'_>, pages: &[u32]) -> Result<Set, Fault> {
    match Set::new(alloc, linked, pages) {
        Ok(set) => Ok(set),
        Err(misuse) => {
            let size = SetSize::new(linked.components().len(), pages);
            Err(Fault::Tool(ToolFault::Set { misuse, size }))
        }
    }
}
