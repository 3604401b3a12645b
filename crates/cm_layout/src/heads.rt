//! What a value of a type takes, in bytes and in core values.

ghost use Rattle.std.specs.Prelude.{◌≡◌, ◌≤◌, ◌<◌, ◌+◌, ◌*◌, ◌^◌, ◌==◌, ◌||◌, true, false};
ghost use Rattle.cm_layout.specs.Alignment.{align_to};
ghost use Rattle.cm_layout.specs.Sizes.{discriminant_size, flags_size};

/// What a value of a type takes in memory and in core values.
#[derive(Clone, Copy)]
pub struct Head {
    /// Its size in bytes.
    pub size: u32,
    /// Its alignment in bytes: 1, 2, 4 or 8.
    pub align: u32,
    /// How many core values pass it.
    pub width: u32,
    /// Whether it is plain bytes: each byte is one of a number of the types s8 to s64 and u8 to
    /// u64, so that its bytes may be copied as they are.
    pub is_bulk: bool,
}

impl Head {
    /// What a number of so many bytes takes.
    pub(crate) fn number(bytes: u32) -> Head
        ensures { result ≡ record { size = bytes; align = bytes; width = 1; is_bulk = true } }
    {
        Head {
            size: bytes,
            align: bytes,
            width: 1,
            is_bulk: true,
        }
    }

    /// What so many bytes take that are passed as one core value and are no number.
    pub(crate) fn unit(bytes: u32) -> Head
        ensures { result ≡ record { size = bytes; align = bytes; width = 1; is_bulk = false } }
    {
        Head {
            size: bytes,
            align: bytes,
            width: 1,
            is_bulk: false,
        }
    }

    /// What a pointer and a length take.
    pub(crate) fn pointer_and_length() -> Head
        ensures { result ≡ record { size = 8; align = 4; width = 2; is_bulk = false } }
    {
        Head {
            size: 8,
            align: 4,
            width: 2,
            is_bulk: false,
        }
    }

    /// What so many of these take, one behind the other.
    pub(crate) fn repeated(self, count: u32) -> Head
        requires fits { count * self.size < 2 ^ 32 }
        requires narrow { count * self.width < 2 ^ 32 }
        ensures size { result.size ≡ count * self.size }
        ensures align { result.align ≡ self.align }
        ensures width { result.width ≡ count * self.width }
        ensures is_bulk { result.is_bulk ≡ (count == 0) || self.is_bulk }
    {
        Head {
            size: count * self.size,
            align: self.align,
            width: count * self.width,
            is_bulk: count == 0 || self.is_bulk,
        }
    }
}

/// The least multiple of `align` that is not below `end`.
pub(crate) fn align_to(align: u32, end: u32) -> u32
    requires some { 1 ≤ align }
    requires fits { end + align < 2 ^ 32 }
    ensures value { result ≡ align_to align end }
    ensures near { result + 1 ≤ end + align }
{
    (end + (align - 1)) / align * align
}

/// The size in bytes of the number of a case, where there are so many cases.
pub(crate) fn discriminant_size(cases: usize) -> u32
    ensures value { result ≡ discriminant_size cases }
    ensures positive { 1 ≤ result }
    ensures small { result ≤ 4 }
{
    if cases <= 256 {
        1
    } else if cases <= 65_536 {
        2
    } else {
        4
    }
}

/// The size in bytes of a set of so many labels.
pub(crate) fn flags_size(labels: usize) -> u32
    ensures value { result ≡ flags_size labels }
    ensures positive { 1 ≤ result }
    ensures small { result ≤ 4 }
{
    if labels <= 8 {
        1
    } else if labels <= 16 {
        2
    } else {
        4
    }
}
