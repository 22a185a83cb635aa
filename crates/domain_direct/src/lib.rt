// The delivery structures at work, for a domain in its own 144 words: the claim of a hart's top, the three
// settable numbers, and the signal to the hart. 01, "Direct delivery and signals".
#![tactic(auto)]

mod hart;
mod numbers;

pub use hart::{claim, signal};
pub use numbers::{put_setting, setting_of};

// The settable numbers of a delivery structure.
#[derive(Clone, Copy)]
pub enum Setting {
    Idelivery,
    Iforce,
    Ithreshold,
}
