// The functions that a monitor in C calls, each thin over one call of the board. The crate monitor_c exports
// them by their names. C gives a slice as two arguments, the pointer and the number of words;
// include/varskumo.h has the prototypes.
#![tactic(auto)]

ghost use Rattle.board_call.specs.declared.Call.TheVariants as the;
ghost use Rattle.board_call.specs.Outcome.{outcome};
ghost use Rattle.monitor_answer.specs.Told.{Told, Tells};

use board_move_calls::make_access;
use monitor_answer::{VskAnswer, numbers};
use sizes::SAVED_SIZE;

pub fn vsk_reset(state: &mut [u32], log: &mut [u32]) -> VskAnswer
    ensures { Tells the.Reset state.old log.old result
        state.new log.new }
{
    numbers(board_hart_calls::reset(state, log))
}

pub fn vsk_wire(state: &mut [u32], log: &mut [u32], wire: u64, level: u64) -> VskAnswer
    ensures { Tells (the.Wire wire level) state.old log.old result
        state.new log.new }
{
    numbers(board_wired_calls::wire(state, log, wire, level))
}

pub fn vsk_domain_read(state: &mut [u32], log: &mut [u32], domain: u64, address: u64) -> VskAnswer
    ensures { Tells (the.DomainRead domain address) state.old log.old result
        state.new log.new }
{
    numbers(board_wired_calls::domain_read(state, log, domain, address))
}

pub fn vsk_domain_write(
    state: &mut [u32],
    log: &mut [u32],
    domain: u64,
    address: u64,
    value: u32,
) -> VskAnswer
    ensures { Tells (the.DomainWrite domain address value) state.old log.old result
        state.new log.new }
{
    numbers(board_wired_calls::domain_write(state, log, domain, address, value))
}

pub fn vsk_page_read(
    state: &mut [u32],
    log: &mut [u32],
    hart: u64,
    file: u64,
    address: u64,
) -> VskAnswer
    ensures { Tells (the.PageRead hart file address) state.old log.old result
        state.new log.new }
{
    numbers(board_file_calls::page_read(state, log, hart, file, address))
}

pub fn vsk_page_write(
    state: &mut [u32],
    log: &mut [u32],
    hart: u64,
    file: u64,
    address: u64,
    value: u32,
) -> VskAnswer
    ensures { Tells (the.PageWrite hart file address value) state.old log.old result
        state.new log.new }
{
    numbers(board_file_calls::page_write(state, log, hart, file, address, value))
}

pub fn vsk_register(
    state: &mut [u32],
    log: &mut [u32],
    hart: u64,
    file: u64,
    kind: u64,
    select: u64,
    value: u64,
) -> VskAnswer
    ensures { Tells (the.Register hart file kind select value)
        state.old log.old result state.new log.new }
{
    numbers(board_file_calls::register(state, log, hart, file, kind, select, value))
}

pub fn vsk_top(state: &mut [u32], log: &mut [u32], hart: u64, file: u64) -> VskAnswer
    ensures { Tells (the.Top hart file) state.old log.old result
        state.new log.new }
{
    numbers(board_file_calls::top(state, log, hart, file))
}

pub fn vsk_claim(state: &mut [u32], log: &mut [u32], hart: u64, file: u64) -> VskAnswer
    ensures { Tells (the.Claim hart file) state.old log.old result
        state.new log.new }
{
    numbers(board_file_calls::claim(state, log, hart, file))
}

pub fn vsk_signals(state: &mut [u32], log: &mut [u32], hart: u64) -> VskAnswer
    ensures { Tells (the.Signals hart) state.old log.old result
        state.new log.new }
{
    numbers(board_hart_calls::signals(state, log, hart))
}

// C gives the saved numbers as a pointer to ten numbers, the same one at each access of a move.
pub fn vsk_move(
    state: &mut [u32],
    log: &mut [u32],
    oldhart: u64,
    oldfile: u64,
    newhart: u64,
    newfile: u64,
    access: u64,
    saved: &mut [u64; SAVED_SIZE],
) -> VskAnswer
    ensures { Told (outcome (the.Move oldhart oldfile newhart newfile access) state.old
        log.old saved.old) result
        state.new log.new saved.new }
{
    numbers(make_access(
        state, log, saved, oldhart, oldfile, newhart, newfile, access,
    ))
}
