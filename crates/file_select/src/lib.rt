// The leaves of a message file's registers: which select numbers there are and what each names, the two words
// behind one of them, and the deliveries that a file may store. 01, "One message file".
#![tactic(auto)]

mod deliveries;
mod halves;
mod names;

pub use deliveries::delivery_legal;
pub use halves::{doubleword, put_doubleword, put_halves};
pub use names::{register_of, select_legal};

// The standard's numbers for the first registers of each kind, and the delivery that follows the wires.
pub const EIDELIVERY: u64 = 0x70;

pub const EITHRESHOLD: u64 = 0x72;

pub const EIP0: u64 = 0x80;

pub const EIE0: u64 = 0xC0;

pub const FROM_WIRED: u32 = 0x40000000;

#[derive(Clone, Copy)]
pub enum Register {
    Delivery,
    Threshold,
    // the pending bits, or the enable bits, of identities 64 j to 64 j + 63
    Pending(u64),
    Enable(u64),
    // reads 0 and ignores writes
    Unused,
}
