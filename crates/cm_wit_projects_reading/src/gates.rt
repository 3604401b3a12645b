//! Gates as WIT texts write them.

use cm_types::Label;
use cm_wit_tokens::Version;

/// A gate (WIT.md, "Feature Gates").
#[derive(Drop)]
pub enum Gate {
    /// `@since(version = ..)`
    Since(Version),
    /// `@unstable(feature = ..)`
    Unstable(Label),
    /// `@deprecated(version = ..)`
    Deprecated(Version),
}

/// A gate, and how many bytes of the text are left from its `@` on.
#[derive(Drop)]
pub struct PlacedGate {
    pub left: usize,
    pub gate: Gate,
}

/// A thing behind its gates, and how many bytes of the text are left from its first token on.
#[derive(Drop)]
pub struct Gated<T: Drop> {
    pub gates: Vec<PlacedGate>,
    pub left: usize,
    pub item: T,
}

/// What a form holds, or that a form stands in it that is left out: floats, `own`, `stream`,
/// `future`, `async`, `map` and `error-context`. What stands behind such a word is passed over.
#[derive(Drop)]
pub enum Kept<T: Drop> {
    Read(T),
    /// How many bytes of the text are left from the first such word on.
    LeftOut(usize),
}
