// A number as decimal digits: read from a field of a line, and put into bytes.
#![tactic(auto)]

mod reading;
mod text;

pub use reading::decimal;
pub use text::put_decimal;

// How many digits a number takes at most.
pub const NUMBER_ROOM: usize = 20;
