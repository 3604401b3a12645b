//! What crosses the edge of a core module: a core value is of one of two kinds, since floats are
//! left out.

ghost use Rattle.std.specs.Prelude.{◌≡◌};
ghost use Rattle.cm_types.specs.CoreValues.{kind_of};

/// The kind of a core value (CanonicalABI.md, "Flattening").
#[derive(Clone, Copy, Debug, PartialEq, Eq)]
pub enum CoreKind {
    I32,
    I64,
}

/// A core value: a number of 32 or of 64 bits, without a sign of its own.
#[derive(Clone, Copy, Debug, PartialEq, Eq)]
pub enum CoreValue {
    I32(u32),
    I64(u64),
}

impl CoreValue {
    /// The kind of the value.
    pub fn kind(self) -> CoreKind
        ensures { result ≡ kind_of self }
    {
        match self {
            CoreValue::I32(_) => CoreKind::I32,
            CoreValue::I64(_) => CoreKind::I64,
        }
    }
}

impl Default for CoreValue {
    ghost use Rattle.cm_types.specs.declared.core_value.CoreValue.TheVariants as core_value;

    ghost is_default = { λ value. value ≡ core_value.I32 0 };

    /// The number 0 of 32 bits.
    fn default() -> CoreValue {
        CoreValue::I32(0)
    }
}
