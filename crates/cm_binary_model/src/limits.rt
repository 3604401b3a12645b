//! The limits of a component file.

/// The most types of a component file, a limit of this project's own.
pub const MAX_TYPES: usize = 4_096;

/// The most bytes of a component file, a limit of this project's own.
pub const MAX_FILE_BYTES: usize = 16_777_216;

/// The first eight bytes of a core module, version 1 (core specification, "Modules").
pub const MODULE_PREAMBLE: [u8; 8] = [0x00, 0x61, 0x73, 0x6d, 0x01, 0x00, 0x00, 0x00];

/// The first eight bytes of a component (Binary.md, "Component Definitions").
pub const COMPONENT_PREAMBLE: [u8; 8] = [0x00, 0x61, 0x73, 0x6d, 0x0d, 0x00, 0x01, 0x00];

/// Why sections make no component. The limits on types and bytes are this project's own.
#[derive(Clone, Copy, Debug, PartialEq, Eq, thiserror::Error)]
pub enum LimitFault {
    /// More than 4,096 types.
    #[error("more than 4096 types")]
    TooMany,
    /// The shortest file takes more than 16,777,216 bytes.
    #[error("more than 16777216 bytes")]
    TooLong,
    /// A core module does not begin with the preamble `00 61 73 6D 01 00 00 00`.
    #[error("a core module without its preamble")]
    NotAModule,
}

impl LimitFault {
    ghost use Rattle.std.specs.Prelude.{◌≡◌};
    ghost use Rattle.cm_binary_model.specs.Limits.{limit_number};

    /// The number by which the fault is known, from 1 for `TooMany` to 3 for `NotAModule`.
    pub fn number(self) -> u8
        ensures { result ≡ limit_number self }
    {
        match self {
            LimitFault::TooMany => 1,
            LimitFault::TooLong => 2,
            LimitFault::NotAModule => 3,
        }
    }
}
