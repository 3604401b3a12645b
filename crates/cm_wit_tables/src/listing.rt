//! Declarations, with what finds them.

use crate::Declaration;
use cm_names::Keys;
use cm_types::ResourceId;

/// The declarations of a world, what finds them by their keys, and for each the resource that it
/// brings if it declares one.
#[derive(Clone, Copy)]
pub struct Listing<'s, 'k> {
    pub declarations: &'s [Declaration<'k>],
    pub names: &'s Keys<'k>,
    pub resources: &'s [ResourceId],
}
