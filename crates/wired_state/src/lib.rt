// The wires and two domains in 290 words, and a wire that is set. Nothing is sent here.
#![tactic(auto)]

mod state;
mod wire;

pub use state::{delegated, domain_part, place_of, store_source, wires};
pub use wire::set_wire;
