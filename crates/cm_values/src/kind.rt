//! What runs of bytes are made of.

ghost use Rattle.std.specs.Prelude.{◌≡◌};
ghost use Rattle.cm_values.specs.Words.{belongs};

/// What a run of bytes is made of.
#[derive(Clone, Copy)]
pub enum Kind {
    /// Spaces, tabs, carriage returns and line feeds.
    Blank,
    /// Letters, digits and hyphens.
    Word,
    Digits,
    HexDigits,
}

impl Kind {
    /// Whether a byte belongs to a run.
    pub fn belongs(self, byte: u8) -> bool
        ensures { result ≡ belongs self byte }
    {
        match self {
            Kind::Blank => byte == b' ' || byte == b'\t' || byte == b'\r' || byte == b'\n',
            Kind::Word => byte.is_ascii_alphanumeric() || byte == b'-',
            Kind::Digits => byte.is_ascii_digit(),
            Kind::HexDigits => byte.is_ascii_hexdigit(),
        }
    }
}
