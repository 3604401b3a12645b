//! The files of a project, as they are handed over.

/// One file of a project: its name, by which people know it, and its text.
#[derive(Clone, Copy)]
pub struct Source<'a> {
    pub name: &'a str,
    pub text: &'a str,
}
