//! Calls as C hands them over: what an allocator is asked for, and the parameters copied.
//!
//! What crosses to C and back are parts of bytes, texts in buffers, answers in numbers, and numbers
//! that say how the types of a function lie in memory and in core values.
#![tactic(auto)]

mod answering;
mod asking;
mod call;
mod copying;
mod core_values;
mod fault;
mod giving;
mod handles;
mod kinds;
mod laying;
mod nodes;
mod passing;
mod printed;
mod spans;
mod texts;
mod verdicts;
mod words;

pub use asking::{HuxRequest, asked};
pub use call::{Call, HuxCall, call_of_func};
pub use cm_abi::Receiver;
pub use copying::{Giver, copy_params};
pub use fault::CallFault;
pub use giving::Taker;
pub use handles::HuxHandle;
pub use kinds::HuxKind;
pub use laying::node_by;
pub use nodes::{HuxNode, HuxSort};
pub use printed::{HuxEnd, Printed};
pub use spans::{HuxSpan, PartsFault, part, parts};
pub use texts::{write_items, write_shown, write_text};
pub use verdicts::HuxVerdict;
pub use words::{CommandFault, words_of};
