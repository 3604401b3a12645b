//! Runs: the longest beginnings of texts that have bytes of one kind alone.

ghost use Rattle.std.specs.Prelude.{◌≡◌, ◌≢◌, ◌≤◌, length};
ghost use Rattle.cm_wit_tokens.specs.Runs.{goes_on, run_length, run_text};
ghost use Rattle.cm_wit_projects_tokens.specs.declared.run.Run.TheVariants as run;
ghost use Rattle.cm_wit_projects_tokens.specs.Views.{run_view};

/// What a run is made of.
#[derive(Clone, Copy)]
pub enum Run {
    /// Letters, digits and hyphens: a word.
    Word,
    /// Digits: an integer.
    Digits,
    /// Letters, digits, `+`, `-`, and each `.` that a letter or digit follows: a version.
    Version,
    /// All but the line feed: a comment to the line's end.
    Line,
}

impl Run {
    /// Whether the first byte of a text belongs to a run that goes on there.
    fn goes_on(self, text: &[u8]) -> bool
        ensures { result ≡ goes_on (run_view self) text.now }
    {
        match (self, text) {
            (_, []) => false,
            (Run::Word, [first, ..]) => first.is_ascii_alphanumeric() || *first == b'-',
            (Run::Digits, [first, ..]) => first.is_ascii_digit(),
            (Run::Version, [b'.', second, ..]) => second.is_ascii_alphanumeric(),
            (Run::Version, [first, ..]) => {
                first.is_ascii_alphanumeric() || *first == b'+' || *first == b'-'
            }
            (Run::Line, [first, ..]) => *first != b'\n',
        }
    }

    /// How many bytes of the front of a text are a run.
    #[tactic(auto, using(crate::proofs::RunLaws::run_laws))]
    pub fn length(self, text: &[u8]) -> usize
        ensures length { result ≡ run_length (run_view self) text.now }
        ensures within { result ≤ length text.now }
    {
        for count in 0..text.len() {
            let (_, rest) = text.split_at(count);
            if !self.goes_on(rest) {
                return count;
            }
        }
        text.len()
    }

    /// The run at the front of a text, which is ASCII where it is no line.
    pub fn text(self, text: &[u8]) -> &str
        requires { self ≢ run.Line }
        ensures text { result.now ≡ run_text (run_view self) text.now }
        ensures length { length result.now ≡ run_length (run_view self) text.now }
    {
        let (run, _) = text.split_at(self.length(text));
        match str::from_utf8(run) {
            Ok(run) => run,
            Err(_) => unreachable!(),
        }
    }
}
