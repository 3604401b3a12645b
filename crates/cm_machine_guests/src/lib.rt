//! Guests that see their memory, and what many guests have in common, as types that they hold.
//!
//! A `SeeingGuest` is shown its instance's memory beside the last event. `MoveQueue` plays moves
//! that were put into it. `Bump` gives out regions of a memory, and `WithAllocator` answers an
//! allocator's calls by one, so that a host writes only what its functions do.
#![tactic(auto)]

mod bump;
pub mod laws;
mod move_queue;
mod seeing_guest;
mod with_allocator;

pub use bump::{Bump, Room};
pub use move_queue::MoveQueue;
pub use seeing_guest::SeeingGuest;
pub use with_allocator::WithAllocator;
