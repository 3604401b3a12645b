//! What may serve an import.

ghost use Rattle.std.specs.Prelude.{◌≡◌};
ghost use Rattle.cm_match_model.specs.Fitting.{and_also};

/// The exports that may serve an import: none, the only one, or more than one.
#[derive(Clone, Copy, Debug, PartialEq, Eq)]
pub enum Candidate {
    /// No export fits.
    None,
    /// One export alone fits: this one of this component.
    One { component: usize, export: usize },
    /// More than one export fits.
    Several,
}

impl Candidate {
    /// The candidates of two lists of exports, of which these are the candidates.
    pub fn and_also(self, other: Candidate) -> Candidate
        ensures { result ≡ and_also self other }
    {
        match (self, other) {
            (Candidate::None, other) => other,
            (first, Candidate::None) => first,
            _ => Candidate::Several,
        }
    }
}
