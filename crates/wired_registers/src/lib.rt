// The wired controller in its own 290 words: its registers and its signals. What each call does before it
// sends.
#![tactic(auto)]

mod access;
mod word;

pub use access::{read, signal};
pub use word::write;
