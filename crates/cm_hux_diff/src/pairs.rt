//! What stands for resources in words.

use std::alloc::{AllocError, Global};
use std::collections::BTreeMap;
use std::fmt::Write;

/// What stands for the resources of both sides, by the numbers that both texts have for them: those
/// for which one stands are the same where types are compared.
#[derive(Drop)]
pub(crate) struct Pairs {
    alloc: Global,
    count: u64,
    old: BTreeMap<u64, u64>,
    new: BTreeMap<u64, u64>,
}

impl Pairs {
    /// Nothing stands for any yet.
    pub(crate) fn new(alloc: Global) -> Pairs {
        Pairs {
            alloc,
            count: 0,
            old: BTreeMap::new(alloc),
            new: BTreeMap::new(alloc),
        }
    }

    /// The next number.
    fn next(&mut self) -> u64 {
        let number = self.count;
        self.count = number.saturating_add(1);
        number
    }

    /// What the old one imports is the host's, if it is a resource.
    pub(crate) fn note_imported(&mut self, old: &str) -> Result<(), AllocError> {
        if let Some(old) = resource_of(old) {
            if self.old.get(&old).is_none() {
                let number = self.next();
                self.old.insert(old, number)?;
            }
        }
        Ok(())
    }

    /// What the new one imports is what the host has for it, if both are resources.
    pub(crate) fn note_served(&mut self, new: &str, old: &str) -> Result<(), AllocError> {
        let (Some(new), Some(old)) = (resource_of(new), resource_of(old)) else {
            return Ok(());
        };
        if let (None, Some(number)) = (self.new.get(&new), self.old.get(&old).copied()) {
            self.new.insert(new, number)?;
        }
        Ok(())
    }

    /// What the old one exports is what the new one has for it, if both are resources.
    pub(crate) fn note_used(&mut self, old: &str, new: &str) -> Result<(), AllocError> {
        let (Some(old), Some(new)) = (resource_of(old), resource_of(new)) else {
            return Ok(());
        };
        let number = match self.new.get(&new) {
            Some(number) => *number,
            None => {
                let number = self.next();
                self.new.insert(new, number)?;
                number
            }
        };
        if self.old.get(&old).is_none() {
            self.old.insert(old, number)?;
        }
        Ok(())
    }

    fn pair_of(&self, pairs: &BTreeMap<u64, u64>, number: Option<u64>) -> Option<u64> {
        pairs.get(&number?).copied()
    }

    /// A text of the old side, in which numbers of both sides stand for resources.
    pub(crate) fn old_text(&self, text: &str) -> Result<String, AllocError> {
        self.with_pairs(&self.old, "old", text)
    }

    /// A text of the new side, in which numbers of both sides stand for resources.
    pub(crate) fn new_text(&self, text: &str) -> Result<String, AllocError> {
        self.with_pairs(&self.new, "new", text)
    }

    /// A text with what stands for each resource; where nothing does, it has its own number behind
    /// a word for its side.
    fn with_pairs(
        &self,
        pairs: &BTreeMap<u64, u64>,
        side: &str,
        text: &str,
    ) -> Result<String, AllocError> {
        let mut out = String::new(self.alloc);
        for (place, part) in text.split('#').enumerate() {
            if place == 0 {
                out.push_str(part)?;
                continue;
            }
            let (number, behind) = numbered(part);
            match (self.pair_of(pairs, number), number) {
                (Some(pair), _) => write!(out, "#{pair}{behind}")?,
                (None, Some(number)) => write!(out, "#{side}-{number}{behind}")?,
                (None, None) => write!(out, "#{behind}")?,
            }
        }
        Ok(out)
    }
}

/// The number that stands at the front of a text, and what stands behind it.
fn numbered(part: &str) -> (Option<u64>, &str) {
    let behind = part.trim_start_matches(|c: char| c.is_ascii_digit());
    let digits = part.strip_suffix(behind).unwrap_or("");
    (digits.parse::<u64>().ok(), behind)
}

/// The number of the resource that an item is, if it is one.
fn resource_of(what: &str) -> Option<u64> {
    what.strip_prefix("resource#")?.parse::<u64>().ok()
}
