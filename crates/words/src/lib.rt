// Bits of words, their bytes, halves and fields: shifts and masks, with their meaning as arithmetic; and the
// test of a threshold.
#![tactic(auto)]

mod bits;
mod parts;
mod threshold;

pub use bits::{has_bit, put_bit, union64, with_bit, without_bit, without64};
pub use parts::{field32, high32, joined64, low32, packed32, reversed32};
pub use threshold::passes;
