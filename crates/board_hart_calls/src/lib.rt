// The calls on the whole board and on a hart: reset, and the signals.
#![tactic(auto)]

mod calls;
mod signal;

pub use calls::{reset, signals};
