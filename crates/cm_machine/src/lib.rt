//! Running sets, guests and players, and the main theorem, the headline.
//!
//! `Set` is a linked set that runs, a move at a time. `Player::drive` plays one by guests, and
//! `drive_seeing` by guests that see their memory. What holds of every history of a set says
//! `laws::headline`.
#![tactic(auto)]

mod headline;
mod player;
mod seeing;
mod telling;
mod turns;
mod watcher;
mod watching;

pub use cm_machine_guests::{Bump, MoveQueue, Room, SeeingGuest, WithAllocator};
pub use cm_machine_model::state::{Place, Work};
pub use cm_machine_model::{
    Event, Flat, Guest, MAX_FLAT_PARAMS, MAX_FRAMES, MAX_INSTANCES, MAX_MEMORY_SIZE, MAX_PAGES,
    Misuse, Move, PAGE_SIZE, Trap,
};
pub use cm_machine_parts::Outcome;
pub use cm_machine_set::Set;
pub use cm_match::{Checked, ExportEntry, LinkFault, LinkReason, Linked, PlanLine, link};
pub use player::Player;
pub use watcher::Watcher;

/// What holds of every history of a set.
pub mod laws {
    pub use crate::headline::headline;
}

/// What a state is made of: types that only contracts name.
pub mod state {
    pub use cm_machine_model::state::{Call, Frame, Lend, Phase, Purpose};
}
