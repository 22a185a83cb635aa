// A record that is run: a line, and the lines of a piece of bytes.
#![tactic(auto)]

mod line;
mod pieces;

pub use line::end_line;
pub use pieces::{Run, some};
