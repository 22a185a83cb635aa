// The calls of the wired controller, on its own 290 words: a wire is set (`wired_state`), or a register is
// read or written (`wired_registers`), and then each domain sends what is to be sent.
#![tactic(auto)]

mod calls;
mod pass;

pub use calls::{read, set_wire, write};
