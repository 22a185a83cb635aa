// The move of a station between two guest files, access by access: what each access of the six published
// steps does, and the targets that step 3 rewrites.
#![tactic(auto)]

mod acts;
mod names;

pub use acts::act_of;
use file::Access;
pub use names::{names_file, renamed};

// How many accesses a move has.
pub const ACCESSES: u64 = 89;

// What one access does.
#[derive(Clone, Copy)]
pub enum Act {
    // select, place: a register of the old file is read into the saved numbers
    Save(u64, usize),
    // whether it is the new file's, select: a register is written 0
    Zero(bool, u64),
    // source: its target, if it names the old file, is rewritten to name the new one
    Target(u64),
    // kind, select, place: a saved number is written to a register of the new file, or set in it
    Put(Access, u64, usize),
}
