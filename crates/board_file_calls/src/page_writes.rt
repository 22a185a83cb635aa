// A write to a file's page, which is a message.
ghost use Rattle.board_call.specs.declared.Call.TheVariants as the;
ghost use Rattle.board_call.specs.Outcome.{Does};

use super::block_file::{check_page, load_file, store_file};
use board_call::{Answer, Done, check};
use sizes::BLOCK_SIZE;

pub fn page_write(
    state: &mut [u32],
    log: &mut [u32],
    hart: u64,
    file: u64,
    address: u64,
    value: u32,
) -> Answer
    ensures { Does (the.PageWrite hart file address value) state.old log.old result
        state.new log.new }
{
    check(state, log)?;
    check_page(hart, file, address)?;
    let state = state.as_mut_array::<BLOCK_SIZE>().unwrap();
    let f = load_file(state, hart, file);
    store_file(state, hart, file, f.page_write(address, value));
    Ok(Done { value: 0, count: 0 })
}
