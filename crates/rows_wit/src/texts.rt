//! The texts of packages, in rows.
//!
//! `wit text NAME` begins a text, and `wit line WORD ..` adds a line to the one that was begun
//! last. Rows after them name the text.

use cm_rows::{Line, read_text, word};
use std::alloc::Global;

/// A text and its name.
#[derive(Drop)]
struct NamedText {
    name: String,
    text: String,
}

/// The texts that rows have named.
#[derive(Drop)]
pub struct Texts {
    named: Vec<NamedText>,
}

impl Texts {
    pub fn new(alloc: Global) -> Texts {
        Texts {
            named: Vec::new(alloc),
        }
    }

    /// Begins a text of a name, and writes `begun`.
    pub fn begin(&mut self, alloc: Global, name: &str, line: &mut Line) {
        if let Some(name) = line.kept(String::from_str(alloc, name)) {
            let text = String::new(alloc);
            line.push(&mut self.named, NamedText { name, text });
        }
        line.put("begun");
    }

    /// Adds a line to the last text, and writes how many bytes that then has.
    pub fn add_line(&mut self, alloc: Global, words: &[&str], line: &mut Line) {
        let text = read_text(alloc, words, line);
        let Some(last) = self.named.last_mut() else {
            return line.refuse();
        };
        if !line.is_fine() {
            return;
        }
        line.kept(last.text.push_str(text.as_str()));
        line.kept(last.text.push_str("\n"));
        line.show(last.text.len());
        line.put(" bytes");
    }

    /// The text of a name.
    pub fn named(&self, name: &str) -> Option<&str> {
        for named in &self.named {
            if named.name.as_str() == name {
                return Some(named.text.as_str());
            }
        }
        None
    }

    /// The text that words of a row stand for: that of the name that they are, or else the one that
    /// they spell.
    fn text(&self, alloc: Global, words: &[&str], line: &mut Line) -> String {
        if words.len() == 1 {
            if let Some(text) = self.named(word(words, 0)) {
                let text = line.kept(String::from_str(alloc, text));
                return text.unwrap_or(String::new(alloc));
            }
        }
        read_text(alloc, words, line)
    }

    /// The texts that words of a row stand for, which `|` parts.
    pub fn texts(&self, alloc: Global, words: &[&str], line: &mut Line) -> Vec<String> {
        let mut texts = Vec::new(alloc);
        for part in words.split(|word| *word == "|") {
            let text = self.text(alloc, part, line);
            line.push(&mut texts, text);
        }
        texts
    }
}
