// What an accepted write does: that of the wired controller on its part, then the messages at their files.
ghost use Rattle.std.specs.Prelude.{◌≡◌, true, ◌≤◌};
ghost use Rattle.sizes.specs.Sizes.{log_size};
ghost use Rattle.domain_region.specs.Region.{Within};
ghost use Rattle.wired.specs.Controller.{write_call};
ghost use Rattle.board_block.specs.Block.{board_of, board_sound};
ghost use Rattle.board_call_laws.specs.Left.{Left};

use super::delivery::delivered;
use domain_region::Word;
use sizes::{BLOCK_SIZE, FILES_SIZE, LOG_SIZE};

// Answers the number of messages.
pub fn write_done(
    state: &mut [u32; BLOCK_SIZE],
    log: &mut [u32; LOG_SIZE],
    child: bool,
    word: Word,
    value: u32,
) -> usize
    requires { Within word × (board_sound (board_of state.old) ≡ true) }
    ensures { (result ≤ log_size) × Left (write_call (board_of state.old).wired child word value)
        state.old state.new log.old log.new result }
{
    let (_, wired) = state.split_at_mut(FILES_SIZE);
    let n = wired::write(wired.first_chunk_mut().unwrap(), log, child, word, value);
    delivered(state, log, n);
    n
}
