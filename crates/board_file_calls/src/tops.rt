// The top of a file, and a claim: the top, with its pending bit cleared.
ghost use Rattle.board_call.specs.declared.Call.TheVariants as the;
ghost use Rattle.board_call.specs.Outcome.{Does};

use super::block_file::{load_file, store_file};
use board_call::{Answer, Done, check, check_numbers, is_file};
use sizes::BLOCK_SIZE;

pub fn top(state: &mut [u32], log: &mut [u32], hart: u64, file: u64) -> Answer
    ensures { Does (the.Top hart file) state.old log.old result
        state.new log.new }
{
    check(state, log)?;
    check_numbers(is_file(hart, file), true, true)?;
    let state = state.as_array::<BLOCK_SIZE>().unwrap();
    let top = load_file(state, hart, file).top();
    Ok(Done {
        value: top as u64,
        count: 0,
    })
}

pub fn claim(state: &mut [u32], log: &mut [u32], hart: u64, file: u64) -> Answer
    ensures { Does (the.Claim hart file) state.old log.old result
        state.new log.new }
{
    check(state, log)?;
    check_numbers(is_file(hart, file), true, true)?;
    let state = state.as_mut_array::<BLOCK_SIZE>().unwrap();
    let f = load_file(state, hart, file);
    let done = f.claim();
    store_file(state, hart, file, done.file);
    Ok(Done {
        value: done.top as u64,
        count: 0,
    })
}
