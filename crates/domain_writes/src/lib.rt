// What a write that names sources does to its domain, before anything is sent.
#![tactic(auto)]

mod change;

pub use change::{change_number, change_word, write_target};
