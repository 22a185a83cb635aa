// The calls, with their refusals.
ghost use Rattle.board_call.specs.declared.Call.TheVariants as the;
ghost use Rattle.std.specs.Prelude.{true, ltb};
ghost use Rattle.sizes.specs.Sizes.{domain_count};
ghost use Rattle.domain_region.specs.Region.{address_legal};
ghost use Rattle.board_block.specs.Block.{Board};
ghost use Rattle.board_call.specs.Answer.{Refuses};
ghost use Rattle.board_call.specs.Calls.{numbered};
ghost use Rattle.board_call.specs.Outcome.{Does};
ghost use Rattle.board_call.specs.Refusal.{name_refusal_by};

use super::accepted_read::read_done;
use super::accepted_wire::wire_done;
use super::accepted_write::write_done;
use board_call::{Answer, Done, Refusal, check, check_numbers};
use domain_region::{address_legal, word_at};
use sizes::{BLOCK_SIZE, DOMAIN_COUNT, LOG_SIZE};

const DOMAINS: u64 = DOMAIN_COUNT as u64;

pub fn wire(state: &mut [u32], log: &mut [u32], wire: u64, level: u64) -> Answer
    ensures { Does (the.Wire wire level) state.old log.old result
        state.new log.new }
{
    check(state, log)?;
    check_numbers(board_call::is_wire(wire, level), true, true)?;
    let state = state.as_mut_array::<BLOCK_SIZE>().unwrap();
    let log = log.as_mut_array::<LOG_SIZE>().unwrap();
    let n = wire_done(state, log, wire as usize, level == 1);
    Ok(Done {
        value: 0,
        count: n as u32,
    })
}

// There is such a domain, and such an address of its region.
fn check_domain(domain: u64, address: u64) -> Result<(), Refusal>
    ensures { (b : Board) → Refuses result (name_refusal_by
        (numbered (ltb domain domain_count) (address_legal address) true) b) }
{
    check_numbers(domain < DOMAINS, address_legal(address), true)
}

// Domain 0 is the machine domain, 1 the child.
pub fn domain_read(state: &mut [u32], log: &mut [u32], domain: u64, address: u64) -> Answer
    ensures { Does (the.DomainRead domain address) state.old log.old result
        state.new log.new }
{
    check(state, log)?;
    check_domain(domain, address)?;
    let state = state.as_mut_array::<BLOCK_SIZE>().unwrap();
    let value = read_done(state, domain == 1, word_at(address));
    Ok(Done {
        value: value as u64,
        count: 0,
    })
}

pub fn domain_write(
    state: &mut [u32],
    log: &mut [u32],
    domain: u64,
    address: u64,
    value: u32,
) -> Answer
    ensures { Does (the.DomainWrite domain address value) state.old log.old result
        state.new log.new }
{
    check(state, log)?;
    check_domain(domain, address)?;
    let state = state.as_mut_array::<BLOCK_SIZE>().unwrap();
    let log = log.as_mut_array::<LOG_SIZE>().unwrap();
    let n = write_done(state, log, domain == 1, word_at(address), value);
    Ok(Done {
        value: 0,
        count: n as u32,
    })
}
