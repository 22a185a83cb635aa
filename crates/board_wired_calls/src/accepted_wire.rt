// What an accepted call does: the wired controller's call on its part, then the messages at their files.
ghost use Rattle.std.specs.Prelude.{◌≡◌, true, ◌≤◌, ◌<◌};
ghost use Rattle.sizes.specs.Sizes.{slot_count, log_size};
ghost use Rattle.wired.specs.Controller.{wire_call};
ghost use Rattle.board_block.specs.Block.{board_of, board_sound};
ghost use Rattle.board_call_laws.specs.Left.{Left};

use super::delivery::delivered;
use sizes::{BLOCK_SIZE, FILES_SIZE, LOG_SIZE};

// Answers the number of messages.
pub fn wire_done(
    state: &mut [u32; BLOCK_SIZE],
    log: &mut [u32; LOG_SIZE],
    i: usize,
    level: bool,
) -> usize
    requires { (1 ≤ i) × (i < slot_count)
        × (board_sound (board_of state.old) ≡ true) }
    ensures { (result ≤ log_size) × Left (wire_call (board_of state.old).wired i level)
        state.old state.new log.old log.new result }
{
    let (_, wired) = state.split_at_mut(FILES_SIZE);
    let n = wired::set_wire(wired.first_chunk_mut().unwrap(), log, i, level);
    delivered(state, log, n);
    n
}
