//! Pieces of what stands in quotes.

/// A byte, or the character of an escape.
#[derive(Clone, Copy)]
pub enum Piece {
    Byte(u8),
    Scalar(char),
}
