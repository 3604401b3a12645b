//! What faces what is wanted.

/// What faces an import or export that is wanted.
#[derive(Clone, Copy, Debug, PartialEq, Eq)]
pub enum Face {
    /// Nobody can link to the export, so that nothing is wanted.
    LeftOut,
    Nothing,
    /// More than one, so that nobody can link to them.
    Several,
    /// This one, by its place from 0.
    One(usize),
}
