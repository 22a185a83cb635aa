// The tests of the two lent blocks: their lengths, and the state rules. Each answers the refusal, or nothing
// if no test fails.
ghost use Rattle.std.specs.Prelude.{◌≡◌, true, false, length, OnOk};
ghost use Rattle.sizes.specs.Sizes.{block_size, log_size};
ghost use Rattle.board_call.specs.Answer.{Refuses};
ghost use Rattle.board_call.specs.Refusal.{block_refusal};

use super::Refusal;
use sizes::{BLOCK_SIZE, LOG_SIZE};

// Refusal 1 or 2.
pub fn lengths(state: &[u32], log: &[u32]) -> Result<(), Refusal>
    ensures told { Refuses result (block_refusal false state.now log.now) }
    ensures long { OnOk result ((length state.now ≡ block_size) × (length log.now ≡ log_size)) }
{
    if state.len() != BLOCK_SIZE {
        return Err(Refusal::StateLength);
    }
    if log.len() != LOG_SIZE {
        return Err(Refusal::LogLength);
    }
    Ok(())
}

// Refusal 1, 2 or 3.
pub fn check(state: &[u32], log: &[u32]) -> Result<(), Refusal>
    ensures told { Refuses result (block_refusal true state.now log.now) }
    ensures long { OnOk result ((length state.now ≡ block_size) × (length log.now ≡ log_size)) }
{
    lengths(state, log)?;
    if !board_block::sound(state.as_array().unwrap()) {
        return Err(Refusal::BrokenRule);
    }
    Ok(())
}
