//! The machine in definitions: a plan, a state, a step, runs and histories.
//!
//! Beside them stands the data that rules and code share: moves, events, traps and misuses, limits,
//! guests, and the linear memories of instances. `Plan` is what each core function of a linked set
//! stands for, `State` a set while it runs, `Step` what each kind of move leads to, `Run` and
//! `History` many steps, and `Valid` what holds between moves. A plan is no part of a state: it has
//! types, and a set keeps layouts, from which no type is read back.
#![tactic(auto)]

mod cells;
mod event;
mod flat;
mod frame;
mod guest;
mod limits;
mod memories;
mod moves;

pub use cm_types::{MAX_FLAT_PARAMS, MAX_FLAT_RESULTS};
pub use event::{Event, Misuse, Trap};
pub use flat::Flat;
pub use guest::Guest;
pub use limits::{MAX_FRAMES, MAX_INSTANCES, MAX_MEMORY_SIZE, MAX_PAGES, PAGE_SIZE};
pub use memories::{Memories, Memory};
pub use moves::Move;

/// What a state is made of: types that only contracts name.
pub mod state {
    pub use crate::frame::{Call, Frame, Lend, Phase, Place, Purpose, Work};
}
