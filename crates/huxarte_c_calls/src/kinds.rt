//! Kinds of answers.

/// What is wrong, by its kind: `HuxVerdict::kind` has its number.
#[derive(Clone, Copy)]
pub enum HuxKind {
    /// Nothing is wrong.
    Fine = 0,
    /// The bytes of a file are no component file: `reason` is the number of a `DecodeReason`,
    /// `place` the byte, from 0.
    Decode = 1,
    /// A shim of a file, or what is made of it, is refused: the number of a `ShimReason`, at the
    /// section `place` and its item `item`.
    Shim = 2,
    /// The plain component of a file passes a limit: the number of a `LimitFault`.
    Limit = 3,
    /// The plain component of a file is not valid: the number of a `ValidReason`, at the section
    /// `place` of that component and its item `item`.
    Invalid = 4,
    /// The plain component of a file is not what the file's shims say: the number of a `FitReason`,
    /// at the want `place`.
    Unfit = 5,
    /// The components can't be linked: the number of a `LinkReason`, at the component `file` and
    /// its import `item`.
    Link = 6,
    /// A WIT text is no package: the number of a `WitReason`, at the byte `place`.
    Wit = 7,
    /// A package has no such world, or the world no signature: the number of a `WorldFault`.
    World = 8,
    /// A component does not fit a world, at the world's export `place`: the number of a
    /// `ConformReason`. Of an item of an instance, `item` is its place there, else `SIZE_MAX`.
    WorldExport = 9,
    /// A component does not fit a world, at the component's import `place`: the number of a
    /// `ConformReason`; `item` as above.
    OwnImport = 10,
    /// A component is not shown: the number of a `ShowFault`.
    Show = 11,
    /// A part passes the end of the bytes that it is a part of.
    Outside = 12,
    /// What is to be a text is not UTF-8.
    NoText = 13,
    /// There was no memory for a list of what was handed over, or for a signature. Other kinds have
    /// a reason of their own for want of memory.
    Memory = 14,
    /// A script is refused, or the machine makes no set of the components.
    Unplayed = 15,
    /// A drive trapped.
    Trapped = 16,
    /// A drive could not begin, or reached its limit.
    Stopped = 17,
    /// No function of the component has the index.
    NoFunc = 18,
    /// Strings are read or stored in no encoding of this number.
    NoEncoding = 19,
    /// There are not as many core values as pass the parameters.
    NoSlots = 20,
    /// A memory has 2^32 bytes or more.
    TooLarge = 21,
    /// The values are refused, or what they are copied to: the number of the trap that this is.
    Value = 22,
    /// A handle table has too many handles, or there was no memory for it: the number of a
    /// `HandleFault`.
    Handles = 23,
    /// The allocator's answer `place` is refused: the number of the trap that this is.
    Answer = 24,
    /// There are more or fewer answers than requests: `place` is how many answers there are.
    Answers = 25,
    /// A path leads to no type, or the function has no result.
    NoPart = 26,
    /// The choice `place` is of an import that is not there, or that has a choice before.
    Choice = 33,
    /// The bytes are no bundle: the number of a `BundleReason`, at the byte `place`.
    Bundle = 34,
    /// What a part of a bundle is given does not stand for an export: the number of a
    /// `LinksReason`, of the part `file` and its argument `item`.
    BundleLinks = 35,
}
