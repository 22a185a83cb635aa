// The call, with its refusals.
ghost use Rattle.board_call.specs.declared.Call.TheVariants as the;
ghost use Rattle.board_call.specs.Outcome.{outcome, Gives};

use super::acts::perform;
use super::guest::Guest;
use super::targets::by_messages;
use board_call::{Answer, Done, check, check_numbers, is_move};
use board_move_steps::act_of;
use sizes::{BLOCK_SIZE, SAVED_SIZE};

// The caller lends the same saved numbers to each of the 89 accesses of a move.
pub fn make_access(
    state: &mut [u32],
    log: &mut [u32],
    saved: &mut [u64; SAVED_SIZE],
    oldhart: u64,
    oldfile: u64,
    newhart: u64,
    newfile: u64,
    access: u64,
) -> Answer
    ensures { Gives (outcome (the.Move oldhart oldfile newhart newfile access) state.old
        log.old saved.old) result
        state.new log.new saved.new }
{
    check(state, log)?;
    let state = state.as_mut_array::<BLOCK_SIZE>().unwrap();
    check_numbers(
        is_move(oldhart, oldfile, newhart, newfile, access) & by_messages(state),
        true,
        true,
    )?;
    let old_file = Guest {
        hart: oldhart,
        file: oldfile,
    };
    let new_file = Guest {
        hart: newhart,
        file: newfile,
    };
    perform(state, saved, old_file, new_file, act_of(access));
    Ok(Done { value: 0, count: 0 })
}
