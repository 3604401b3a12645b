//! How much of a program is written out where it is used.

/// The program of a field is written out in that of the whole where it has at most so many members,
/// else it is shared: so a program takes no more memory than its type has nodes, so many times.
pub const FEW: usize = 1;
