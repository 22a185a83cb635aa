// One access of a move of a station between two guest files, as a call: each is made of the accesses to a
// file's registers and to a target that the other calls make.
#![tactic(auto)]

mod acts;
mod calls;
mod guest;
mod registers;
mod targets;

pub use calls::make_access;
