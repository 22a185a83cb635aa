// Lines out of bytes that come in pieces.
#![tactic(auto)]

mod held;
mod scan;

pub use held::HeldLine;
pub use scan::find;

// A longer line cannot be read.
pub const LINE_SIZE: usize = 200;

// One byte more is kept, which tells that a line is too long.
pub const LINE_ROOM: usize = LINE_SIZE + 1;
