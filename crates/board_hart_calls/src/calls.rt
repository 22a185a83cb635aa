// The calls, with their refusals. Reset tests the lengths only.
ghost use Rattle.board_call.specs.declared.Call.TheVariants as the;
ghost use Rattle.board_call.specs.Outcome.{Does};

use super::signal::all_signals;
use board_call::{Answer, Done, Refusal, check, check_numbers};
use sizes::{BLOCK_SIZE, HART_COUNT, LOG_SIZE};

pub fn reset(state: &mut [u32], log: &mut [u32]) -> Answer
    ensures { Does the.Reset state.old log.old result
        state.new log.new }
{
    // each by itself: by `lengths` and `?` both are tested at once, which takes more than plain C does
    let (state_len, log_len) = (state.len(), log.len());
    if state_len != BLOCK_SIZE {
        return Err(Refusal::StateLength);
    }
    if log_len != LOG_SIZE {
        return Err(Refusal::LogLength);
    }
    board_block::start(state.as_mut_array().unwrap());
    Ok(Done { value: 0, count: 0 })
}

const HARTS: u64 = HART_COUNT as u64;

pub fn signals(state: &mut [u32], log: &mut [u32], hart: u64) -> Answer
    ensures { Does (the.Signals hart) state.old log.old result
        state.new log.new }
{
    check(state, log)?;
    check_numbers(hart < HARTS, true, true)?;
    let signals = all_signals(state.as_array().unwrap(), hart as usize);
    Ok(Done {
        value: signals as u64,
        count: 0,
    })
}
