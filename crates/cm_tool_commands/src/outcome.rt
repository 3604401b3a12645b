//! How a command ends that no fault ends.

ghost use Rattle.std.specs.Prelude.{◌≡◌};
ghost use Rattle.cm_tool_commands.specs.Statuses.{outcome_status};

/// The end of a command, or of one drive, the better one first.
#[derive(Clone, Copy, PartialEq, Eq, PartialOrd, Ord)]
pub enum Outcome {
    /// All was done.
    Done,
    /// A drive was refused, or reached its limit.
    Refused,
    /// A drive trapped.
    Trapped,
}

impl Outcome {
    /// The exit status.
    pub fn status(self) -> u8
        ensures { result ≡ outcome_status self }
    {
        match self {
            Outcome::Done => 0,
            Outcome::Refused => 1,
            Outcome::Trapped => 3,
        }
    }
}
