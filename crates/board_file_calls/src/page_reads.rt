// A read of a file's page.
ghost use Rattle.board_call.specs.declared.Call.TheVariants as the;
ghost use Rattle.board_call.specs.Outcome.{Does};

use super::block_file::{check_page, load_file};
use board_call::{Answer, Done, check};
use sizes::BLOCK_SIZE;

pub fn page_read(state: &mut [u32], log: &mut [u32], hart: u64, file: u64, address: u64) -> Answer
    ensures { Does (the.PageRead hart file address) state.old log.old result
        state.new log.new }
{
    check(state, log)?;
    check_page(hart, file, address)?;
    let state = state.as_array::<BLOCK_SIZE>().unwrap();
    let f = load_file(state, hart, file);
    Ok(Done {
        value: f.page_read(address) as u64,
        count: 0,
    })
}
