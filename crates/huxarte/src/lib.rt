//! The front door: what a host needs of the other doors, `load` and `load_real`.
//!
//! A host depends on this crate alone. What it needs most stands at the root; each module has what
//! a host needs of one door, or of several on one subject.
#![tactic(auto)]

mod fault;
mod loading;
mod real;
mod real_fault;
mod real_shown;
mod shown;

pub use cm_binary::{Component, DecodeFault, decode, encode};
pub use cm_host::machine::{Event, Guest, Misuse, Move, Player, SeeingGuest, Set, Trap};
pub use cm_stubs_files::matching::{LinkFault, Linked, link};
pub use cm_types::{CoreKind, CoreValue};
pub use cm_validate::{Checked, ValidFault, validate};
pub use fault::LoadFault;
pub use loading::load;
pub use real::load_real;
pub use real_fault::RealFault;

/// Faults in words, with names: which file, which import, and who exports the name.
pub mod faults {
    pub use cm_tool_faults::{NamedFile, Shown};
}

/// Component files: their bytes, whole, in pieces or from readers, and the trees that they spell.
pub mod files {
    pub use cm_binary::{
        Alias, Canon, CanonOption, Component, CoreInlineExport, CoreInstance, CoreInstantiationArg,
        CoreSort, CustomSection, DecodeFault, DecodeReason, Decoder, Export, ExportSort,
        ExternDesc, Feature, Import, InlineExport, Instance, InstanceExportSort, LimitFault,
        Section, WriteFault, WriteReason, decode, decode_from, decode_pieces, encode, write_to,
    };
    pub use cm_leb::{LebFault, SignedFault, read_s33, read_u32, write_s33, write_u32};
    pub use cm_types::{
        CaseType, Declaration, DeclaredType, DefType, DefValType, ExportDecl, ExportDesc, FuncType,
        LabeledValType, OuterType, PrimValType, TypeBound, ValType,
    };
}

/// Files of real tools, which may have shims: the plain components that they stand for, and what
/// their shims say of types.
pub mod shims {
    pub use cm_stubs_files::shims::{
        FilesFault, FitFault, FitReason, Place, Places, PlainFault, ShimFault, ShimReason, Shimmed,
        Want, check_files, fits, read, read_files,
    };
}

/// Valid components and linked sets: what is imported and exported, and which export serves which
/// import.
pub mod components {
    pub use cm_stubs_files::matching::{
        Choices, Link, LinkFault, LinkReason, Linked, MAX_COMPONENTS, Place, PlanLine, Target,
        link, link_by,
    };
    pub use cm_types::{ExternName, ExternNameForm, Label, NameFault, ResourceId, same_name};
    pub use cm_types_arena::{ItemDesc, Placed};
    pub use cm_validate::{
        Checked, CoreFuncEntry, Desc, ExportEntry, ExportedEntry, Externs, FuncEntry, GuestExport,
        InstanceEntry, Items, MadeFunc, MemberEntry, NamedDesc, NamedItem, Resource, Signature,
        ValidFault, ValidReason, signature, validate,
    };
}

/// The core functions of a component, by number and by name.
pub mod functions {
    pub use cm_host::functions::{CoreFuncType, Described, Functions, Lift, StringEncoding};
}

/// WIT texts and the worlds in them.
pub mod wit {
    pub use cm_wit::{
        ConformFault, ConformItem, ConformList, ConformReason, Package, Signature, WitFault,
        WitReason, WorldFault, conforms, parse, print, world_signature,
    };
}

/// Values of components: their types, their place in memory, their texts and handles, what lifts
/// and lowers them, and themselves as text, printed and parsed by their types.
pub mod values {
    pub use cm_abi::{
        AbiFault, Encodings, Found, HandleLeaf, HandleValue, Lifted, PartKind, PartRecord, Passed,
        Passing, Receiver, Request, Scan, StringEncoding, Way, check_answer, check_answers, copy,
        lift, lower, requests, scan,
    };
    pub use cm_handles::{Handle, HandleFault, HandleKind, MAX_HANDLES, Table};
    pub use cm_layout::{
        FlatFunc, Layout, Side, align, case_offset, field_offset, flatten, flatten_func, layout,
        size,
    };
    pub use cm_text::{
        Encoding, Latin1, Source, TextFault, Utf8, Utf16, ascii_run, ascii_units, narrow,
        transcode, widen,
    };
    pub use cm_types::{
        Case, CoreKind, CoreValue, Field, Func, ResourceId, TypeFault, TypeNode, TypeTree, Value,
        has_type,
    };
    pub use cm_values::{PrintFault, ValueFault, ValueReason, parse, print};
}

/// Components that stand in for a host: what others import, or what one exports; and files of these
/// that other readers take.
pub mod stub {
    pub use cm_stubs::{StubFault, caller, caller_for, provider, provider_for};
    pub use cm_stubs_files::{StubFileFault, caller_file, provider_file, provider_file_of};
}

/// Hosts in terms of values: functions that a host serves, and functions that it calls.
pub mod hosts {
    pub use cm_host::{
        Answer, CallFault, Caller, Played, ResourceFuncs, Seat, SeatFault, ServeFault, Served,
        Service, Value, ValuesFault,
    };
}

/// The machine that runs a linked set, and guests that play it.
pub mod machine {
    pub use cm_host::machine::{
        Bump, Event, Flat, Guest, MAX_FRAMES, MAX_INSTANCES, MAX_MEMORY_SIZE, MAX_PAGES, Misuse,
        Move, MoveQueue, Outcome, PAGE_SIZE, Place, Player, Room, SeeingGuest, Set, Trap, Watcher,
        WithAllocator, Work,
    };

    /// What holds of every history of a set.
    pub mod laws {
        pub use cm_host::machine::laws::headline;
    }
}
