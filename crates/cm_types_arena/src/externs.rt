//! Imports and exports.

use crate::{InstanceType, Move, Placed};
use cm_types::ExternName;
use std::rc::Rc;

/// An import or an export.
#[derive(Drop)]
pub struct Extern {
    pub name: ExternName,
    pub desc: ExternDesc,
}

/// What an import or an export is.
#[derive(Drop)]
pub enum ExternDesc {
    /// A function, by its type among those of functions.
    Func(Placed),
    /// An instance: its items, with the resources counted as the import counts them.
    Instance {
        ty: Rc<InstanceType>,
        by: Option<Move>,
    },
}
