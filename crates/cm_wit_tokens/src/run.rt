//! Runs: the longest beginnings of texts that have bytes of one kind alone.

ghost use Rattle.std.specs.Prelude.{◌≡◌, ◌≢◌, ◌≤◌, [], length};
ghost use Rattle.cm_wit_tokens.specs.Runs.{belongs, goes_on, run_length, run_text};
ghost use Rattle.cm_wit_tokens.specs.declared.run.Run.TheVariants as run;

/// What a run is made of.
#[derive(Clone, Copy)]
pub enum Run {
    /// Letters, digits and hyphens: a word.
    Word,
    /// Digits: an integer.
    Digits,
    /// Letters, digits, `+`, `-`, and each `.` that a letter or digit follows: a version.
    Version,
    /// All but the line feed: a comment to the line's end.
    Line,
}

fn is_in_word(byte: u8) -> bool
    ensures { result ≡ belongs run.Word byte [] }
{
    byte.is_ascii_alphanumeric() || byte == b'-'
}

fn is_in_line(byte: u8) -> bool
    ensures { result ≡ belongs run.Line byte [] }
{
    byte != b'\n'
}

/// How many bytes of the front of a text are a word.
fn word_length(text: &[u8]) -> usize
    ensures { result ≡ run_length run.Word text.now }
{
    for (index, byte) in text.iter().enumerate() {
        if !is_in_word(*byte) {
            return index;
        }
    }
    text.len()
}

/// How many bytes of the front of a text stand before its first line feed.
fn line_length(text: &[u8]) -> usize
    ensures { result ≡ run_length run.Line text.now }
{
    for (index, byte) in text.iter().enumerate() {
        if !is_in_line(*byte) {
            return index;
        }
    }
    text.len()
}

impl Run {
    /// Whether the first byte of a text belongs to a run that goes on there.
    fn goes_on(self, text: &[u8]) -> bool
        ensures { result ≡ goes_on self text.now }
    {
        match (self, text) {
            (_, []) => false,
            (Run::Word, [first, ..]) => first.is_ascii_alphanumeric() || *first == b'-',
            (Run::Digits, [first, ..]) => first.is_ascii_digit(),
            (Run::Version, [b'.', second, ..]) => second.is_ascii_alphanumeric(),
            (Run::Version, [first, ..]) => {
                first.is_ascii_alphanumeric() || *first == b'+' || *first == b'-'
            }
            (Run::Line, [first, ..]) => *first != b'\n',
        }
    }

    /// The same for every kind of run, by more steps for each byte.
    #[tactic(auto, using(crate::proofs::RunLaws::run_laws))]
    fn length_of_others(self, text: &[u8]) -> usize
        ensures { result ≡ run_length self text.now }
    {
        for count in 0..text.len() {
            let (_, rest) = text.split_at(count);
            if !self.goes_on(rest) {
                return count;
            }
        }
        text.len()
    }

    /// How many bytes of the front of a text are a run.
    pub fn length(self, text: &[u8]) -> usize
        ensures length { result ≡ run_length self text.now }
        ensures within { result ≤ length text.now }
    {
        match self {
            Run::Word => word_length(text),
            Run::Line => line_length(text),
            Run::Digits | Run::Version => self.length_of_others(text),
        }
    }

    /// The run at the front of a text, which is ASCII where it is no line.
    pub fn text(self, text: &str) -> &str
        requires { self ≢ run.Line }
        ensures text { result.now ≡ run_text self text.now }
        ensures length { length result.now ≡ run_length self text.now }
    {
        let (run, _) = text.split_at(self.length(text.as_bytes()));
        run
    }
}
