//! What differs, and the line that says so.

use std::fmt;

/// Where something stands.
#[derive(Clone, Copy, PartialEq, Eq)]
pub enum Side {
    Import,
    Export,
}

impl fmt::Display for Side {
    fn fmt<W: fmt::Write>(&self, f: &mut fmt::Formatter<W>) -> fmt::Result {
        f.write_str(match self {
            Side::Import => "import",
            Side::Export => "export",
        })
    }
}

/// For whom it breaks something.
#[derive(Clone, Copy, PartialEq, Eq)]
pub enum Effect {
    /// Users import what the old one exports.
    Users,
    /// Hosts export what the old one imports.
    Hosts,
    /// A component that links beside the old one may not link beside the new one.
    MayClash,
    Harmless,
}

impl Effect {
    /// Whether it breaks something for users or hosts.
    pub fn breaks(self) -> bool {
        matches!(self, Effect::Users | Effect::Hosts)
    }
}

impl fmt::Display for Effect {
    fn fmt<W: fmt::Write>(&self, f: &mut fmt::Formatter<W>) -> fmt::Result {
        f.write_str(match self {
            Effect::Users => "breaks users",
            Effect::Hosts => "breaks hosts",
            Effect::MayClash => "may clash",
            Effect::Harmless => "harmless",
        })
    }
}

/// How it differs.
#[derive(Drop)]
pub enum Change<'a> {
    /// Only the old one has it. Of an interface of which the new one has another version, that is
    /// not compatible, also its name.
    Gone { other: Option<&'a str> },
    /// Only the new one has it. Of an interface of which the old one has another version, that is
    /// not compatible, also its name.
    New { other: Option<&'a str> },
    /// It is of another type.
    Changed { was: String, is: String },
    /// It stands under a compatible version of its name.
    Renamed { is: &'a str },
    /// More than one stands under compatible versions of its name.
    Several,
    /// What is imported is exported too.
    Exported,
}

/// A difference of a new signature from an old one. It is shown as `export greet is gone (breaks
/// users)`.
#[derive(Drop)]
pub struct Difference<'a> {
    pub side: Side,
    /// The name of the import or the export.
    pub name: &'a str,
    /// The name of the item of an instance, if it is of one.
    pub item: Option<&'a str>,
    pub change: Change<'a>,
    pub effect: Effect,
    /// The items of the same instance that differ by it alone.
    pub used_by: Vec<&'a str>,
}

impl fmt::Display for Difference<'_> {
    fn fmt<W: fmt::Write>(&self, f: &mut fmt::Formatter<W>) -> fmt::Result {
        write!(f, "{} {}", self.side, self.name)?;
        if let Some(item) = self.item {
            write!(f, ": {item}")?;
        }
        write_change(f, &self.change)?;
        write_users(f, &self.used_by)?;
        write!(f, " ({})", self.effect)
    }
}

fn write_change<W: fmt::Write>(f: &mut fmt::Formatter<W>, change: &Change<'_>) -> fmt::Result {
    match change {
        Change::Gone { other } => write_missing(f, "gone", *other),
        Change::New { other } => write_missing(f, "new", *other),
        Change::Changed { was, is } => write!(f, " is changed: was {was}, is {is}"),
        Change::Renamed { is } => write!(f, " is {is}"),
        Change::Several => f.write_str(" is there more than once"),
        Change::Exported => f.write_str(" is exported too"),
    }
}

/// Writes which items differ by it alone.
fn write_users<W: fmt::Write>(f: &mut fmt::Formatter<W>, users: &[&str]) -> fmt::Result {
    let mut front = ", used by ";
    for user in users {
        write!(f, "{front}{user}")?;
        front = ", ";
    }
    Ok(())
}

/// Writes that something stands on one side alone.
fn write_missing<W: fmt::Write>(
    f: &mut fmt::Formatter<W>,
    how: &str,
    other: Option<&str>,
) -> fmt::Result {
    write!(f, " is {how}")?;
    match other {
        Some(other) => write!(f, ": {other} is no compatible version"),
        None => Ok(()),
    }
}
