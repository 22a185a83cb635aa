// The calls on the wired controller: a wire set, a word of a domain read or written.
#![tactic(auto)]

mod accepted_read;
mod accepted_wire;
mod accepted_write;
mod calls;
mod delivery;

pub use calls::{domain_read, domain_write, wire};
