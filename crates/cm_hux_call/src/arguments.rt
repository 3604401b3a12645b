//! Where the arguments of a call stand in its text.

/// How deep a text stands in brackets, and whether in quotes.
#[derive(Clone, Copy)]
struct Nesting {
    depth: usize,
    /// The quote that ends the text in quotes.
    quote: Option<char>,
    /// Whether the character before is a backslash that stands for no character.
    is_escaped: bool,
}

/// How many commas stand in a text in parentheses before this byte, outside of inner brackets and
/// quotes: the number of the argument that stands there, from 0.
pub(crate) fn commas_before(text: &str, end: usize) -> usize {
    let mut nesting = Nesting {
        depth: 0,
        quote: None,
        is_escaped: false,
    };
    let mut commas: usize = 0;
    for (at, c) in text.char_indices() {
        if at < end && nesting.ends_argument(c) {
            commas = commas.saturating_add(1);
        }
    }
    commas
}

impl Nesting {
    /// Goes on behind a character, and answers whether it ends an argument behind which another is.
    fn ends_argument(&mut self, c: char) -> bool {
        if let Some(quote) = self.quote {
            self.go_on_quoted(c, quote);
            return false;
        }
        match c {
            '"' | '\'' => self.quote = Some(c),
            '(' | '[' | '{' => self.depth = self.depth.saturating_add(1),
            ')' | ']' | '}' => self.depth = self.depth.saturating_sub(1),
            _ => {}
        }
        c == ',' && self.depth == 1
    }

    fn go_on_quoted(&mut self, c: char, quote: char) {
        if c == quote && !self.is_escaped {
            self.quote = None;
        }
        self.is_escaped = c == '\\' && !self.is_escaped;
    }
}
