// One message file of a hart (IMSIC): a value that each method takes and hands back. 01, "One message file".
#![tactic(auto)]

mod page;
mod register;
mod rules;
mod top;

pub use register::{Access, Accessed};
use sizes::FILE_SET_SIZE;
pub use top::Claimed;

// [01 F22 F23]
#[derive(Clone, Copy)]
pub struct File {
    pub delivery: u32,
    pub threshold: u32,
    pub pending: [u32; FILE_SET_SIZE],
    pub enable: [u32; FILE_SET_SIZE],
}
