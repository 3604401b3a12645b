//! Files, bundles, faults and endings, which the commands of `hux` share.
//!
//! Each reads component files that may have shims, as the standard tool chain writes them.
#![tactic(auto)]

mod choosing;
mod ending;
mod fault;
mod fault_objects;
mod fronts;
mod gathered;
mod groups;
mod loaded_files;
mod loading;
mod making;
mod open_signing;
mod opening;
mod part_words;
mod providers;
mod serve_words;
mod served;
mod serving;
mod signing;
mod stop;
mod streams;
mod taking;
mod trouble;
mod type_imports;

pub use cm_binary::encode;
pub use cm_bundle::Bundle;
pub use cm_hux_json::{Object, ToValue, Value, event_object, line_of, signature_rows, type_text};
pub use cm_match::{Choices, link_by};
pub use cm_stubs::{Component, caller, provider, provider_for};
pub use cm_tool_commands::{
    Asked, Checked, Disk, Fault as ToolFault, FileFault, Files, LIMIT, Linked, Outcome,
    UnfitReason, Usage, checked_of, conform_component, read_file, signature, text_of, words_of,
    world_of,
};
pub use cm_tool_help_texts::{Escaped, wit_help, world_help};
pub use cm_tool_help_types::conform_help;
pub use cm_validate_functions::Functions;
pub use ending::Ending;
pub use fault::{Fault, WhyNoFile, report};
pub use fault_objects::{fault_object, tell, tell_bytes, tell_fault};
pub use fronts::Front;
pub use groups::Group;
pub use loaded_files::{LoadedFiles, check_file, load_files};
pub use loading::{Loaded, kept, load_bytes, load_file, of_file, read_bytes};
pub use making::{made, write_arguments};
pub use providers::links_by_name;
pub use served::{OpenImport, Served};
pub use signing::signature_in;
pub use stop::{Stop, told};
pub use streams::{
    DiskStreams, Streams, create, refuse_to_overwrite, unwritten, write_file, write_whole,
};
pub use taking::{part_of, read_bundle};
