// Every call of the board, as one function over the enum of calls: what replays a record of calls needs.
#![tactic(auto)]

ghost use Rattle.board_call.specs.Outcome.{outcome, Gives};

use board_call::{Answer, Call};
use board_file_calls::{claim, page_read, page_write, register, top};
use board_hart_calls::{reset, signals};
use board_move_calls::make_access;
use board_wired_calls::{domain_read, domain_write};
use sizes::SAVED_SIZE;

// Only a move reads or writes the saved numbers.
pub fn apply(
    state: &mut [u32],
    log: &mut [u32],
    saved: &mut [u64; SAVED_SIZE],
    call: Call,
) -> Answer
    ensures { Gives (outcome call state.old log.old saved.old) result
        state.new log.new saved.new }
{
    match call {
        Call::Reset => reset(state, log),
        Call::Wire(wire, level) => board_wired_calls::wire(state, log, wire, level),
        Call::DomainRead(domain, address) => domain_read(state, log, domain, address),
        Call::DomainWrite(domain, address, value) => domain_write(
            state, log, domain, address, value,
        ),
        Call::PageRead(hart, file, at) => page_read(state, log, hart, file, at),
        Call::PageWrite(hart, file, at, value) => page_write(state, log, hart, file, at, value),
        Call::Register(hart, file, kind, select, value) => register(
            state, log, hart, file, kind, select, value,
        ),
        Call::Top(hart, file) => top(state, log, hart, file),
        Call::Claim(hart, file) => claim(state, log, hart, file),
        Call::Signals(hart) => signals(state, log, hart),
        Call::Move(oldhart, oldfile, newhart, newfile, access) => make_access(
            state, log, saved, oldhart, oldfile, newhart, newfile, access,
        ),
    }
}
