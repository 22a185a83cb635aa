// The calls of the board, what they answer, and what is tested before they are done.
#![tactic(auto)]

mod blocks;
mod numbers;

pub use blocks::{check, lengths};
pub use numbers::{check_numbers, is_file, is_move, is_page_address, is_wire, kind_of, known_kind};

// One case for each call, with its numbers.
// [01 B11 C1 V2]
#[derive(Clone, Copy)]
pub enum Call {
    Reset,
    // wire, level
    Wire(u64, u64),
    // domain, address
    DomainRead(u64, u64),
    // domain, address, value
    DomainWrite(u64, u64, u32),
    // hart, file, address
    PageRead(u64, u64, u64),
    // hart, file, address, value
    PageWrite(u64, u64, u64, u32),
    // hart, file, kind of access, select, value
    Register(u64, u64, u64, u64, u64),
    // hart, file
    Top(u64, u64),
    // hart, file
    Claim(u64, u64),
    // hart
    Signals(u64),
    // hart and file of old, hart and file of new, access
    Move(u64, u64, u64, u64, u64),
}

// What an accepted call answers.
#[derive(Clone, Copy, Debug, PartialEq, Eq)]
pub struct Done {
    pub value: u64,
    // the number of messages
    pub count: u32,
}

// Why a call is refused, in the order of the tests.
#[derive(Clone, Copy, Debug, PartialEq, Eq)]
pub enum Refusal {
    StateLength,
    LogLength,
    BrokenRule,
    NoSuch,
    BadAddress,
    IllegalSelect,
}

pub type Answer = Result<Done, Refusal>;
