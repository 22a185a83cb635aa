// An access to a register of a file, by its select number.
ghost use Rattle.board_call.specs.declared.Call.TheVariants as the;
ghost use Rattle.board_call.specs.Outcome.{Does};

use super::block_file::{load_file, store_file};
use board_call::{Answer, Done, check, check_numbers, is_file, known_kind};
use file_select::select_legal;
use sizes::{BLOCK_SIZE, FIRST_GUEST};

// The kind is 0 for read, 1 for write, 2 for set bits, 3 for clear bits.
pub fn register(
    state: &mut [u32],
    log: &mut [u32],
    hart: u64,
    file: u64,
    kind: u64,
    select: u64,
    value: u64,
) -> Answer
    ensures { Does (the.Register hart file kind select value) state.old log.old result
        state.new log.new }
{
    check(state, log)?;
    let access = known_kind(kind)?;
    check_numbers(is_file(hart, file), true, select_legal(select))?;
    let state = state.as_mut_array::<BLOCK_SIZE>().unwrap();
    let f = load_file(state, hart, file);
    let done = f.access(FIRST_GUEST as u64 <= file, access, select, value);
    store_file(state, hart, file, done.file);
    Ok(Done {
        value: done.answer.unwrap_or(0),
        count: 0,
    })
}
