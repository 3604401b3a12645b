//! The functions that C calls, over bytes, numbers and plain structs (include/huxarte.h).
#![tactic(auto)]

mod calls;
mod components;
mod cores;
mod event;
mod hux;
mod hux_set;
mod kept_set;
mod looking;
mod making;
mod moving;
mod playing;
mod refusal;
mod sets;
mod streams;
mod telling;
mod tool;
