// The functions that a monitor in C calls, exported by their names: each is the function of the crate monitor
// of the same name. C gives a slice as two arguments, the pointer and the number of words; include/varskumo.h
// has the prototypes.
#![tactic(auto)]

ghost use Rattle.board_call.specs.declared.Call.TheVariants as the;
ghost use Rattle.board_call.specs.Outcome.{outcome};
ghost use Rattle.monitor_answer.specs.Told.{Told, Tells};

use monitor_answer::VskAnswer;
use sizes::SAVED_SIZE;

#[unsafe(no_mangle)]
pub extern "C" fn vsk_reset(state: &mut [u32], log: &mut [u32]) -> VskAnswer
    ensures { Tells the.Reset state.old log.old result
        state.new log.new }
{
    monitor::vsk_reset(state, log)
}

#[unsafe(no_mangle)]
pub extern "C" fn vsk_wire(state: &mut [u32], log: &mut [u32], wire: u64, level: u64) -> VskAnswer
    ensures { Tells (the.Wire wire level) state.old log.old result
        state.new log.new }
{
    monitor::vsk_wire(state, log, wire, level)
}

#[unsafe(no_mangle)]
pub extern "C" fn vsk_domain_read(
    state: &mut [u32],
    log: &mut [u32],
    domain: u64,
    address: u64,
) -> VskAnswer
    ensures { Tells (the.DomainRead domain address) state.old log.old result
        state.new log.new }
{
    monitor::vsk_domain_read(state, log, domain, address)
}

#[unsafe(no_mangle)]
pub extern "C" fn vsk_domain_write(
    state: &mut [u32],
    log: &mut [u32],
    domain: u64,
    address: u64,
    value: u32,
) -> VskAnswer
    ensures { Tells (the.DomainWrite domain address value) state.old log.old result
        state.new log.new }
{
    monitor::vsk_domain_write(state, log, domain, address, value)
}

#[unsafe(no_mangle)]
pub extern "C" fn vsk_page_read(
    state: &mut [u32],
    log: &mut [u32],
    hart: u64,
    file: u64,
    address: u64,
) -> VskAnswer
    ensures { Tells (the.PageRead hart file address) state.old log.old result
        state.new log.new }
{
    monitor::vsk_page_read(state, log, hart, file, address)
}

#[unsafe(no_mangle)]
pub extern "C" fn vsk_page_write(
    state: &mut [u32],
    log: &mut [u32],
    hart: u64,
    file: u64,
    address: u64,
    value: u32,
) -> VskAnswer
    ensures { Tells (the.PageWrite hart file address value) state.old log.old result
        state.new log.new }
{
    monitor::vsk_page_write(state, log, hart, file, address, value)
}

#[unsafe(no_mangle)]
pub extern "C" fn vsk_register(
    state: &mut [u32],
    log: &mut [u32],
    hart: u64,
    file: u64,
    kind: u64,
    select: u64,
    value: u64,
) -> VskAnswer
    ensures { Tells (the.Register hart file kind select value)
        state.old log.old result state.new log.new }
{
    monitor::vsk_register(state, log, hart, file, kind, select, value)
}

#[unsafe(no_mangle)]
pub extern "C" fn vsk_top(state: &mut [u32], log: &mut [u32], hart: u64, file: u64) -> VskAnswer
    ensures { Tells (the.Top hart file) state.old log.old result
        state.new log.new }
{
    monitor::vsk_top(state, log, hart, file)
}

#[unsafe(no_mangle)]
pub extern "C" fn vsk_claim(state: &mut [u32], log: &mut [u32], hart: u64, file: u64) -> VskAnswer
    ensures { Tells (the.Claim hart file) state.old log.old result
        state.new log.new }
{
    monitor::vsk_claim(state, log, hart, file)
}

#[unsafe(no_mangle)]
pub extern "C" fn vsk_signals(state: &mut [u32], log: &mut [u32], hart: u64) -> VskAnswer
    ensures { Tells (the.Signals hart) state.old log.old result
        state.new log.new }
{
    monitor::vsk_signals(state, log, hart)
}

#[unsafe(no_mangle)]
pub extern "C" fn vsk_move(
    state: &mut [u32],
    log: &mut [u32],
    oldhart: u64,
    oldfile: u64,
    newhart: u64,
    newfile: u64,
    access: u64,
    saved: &mut [u64; SAVED_SIZE],
) -> VskAnswer
    ensures { Told (outcome (the.Move oldhart oldfile newhart newfile access) state.old
        log.old saved.old) result
        state.new log.new saved.new }
{
    monitor::vsk_move(
        state, log, oldhart, oldfile, newhart, newfile, access, saved,
    )
}
