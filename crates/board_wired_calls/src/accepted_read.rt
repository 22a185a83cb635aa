// What an accepted read does: that of the wired controller on its part; nothing is sent.
ghost use Rattle.std.specs.Prelude.{◌≡◌, true};
ghost use Rattle.domain_region.specs.Region.{Within};
ghost use Rattle.wired_registers.specs.Wired.{read_in};
ghost use Rattle.wired.specs.Controller.{read_call};
ghost use Rattle.board_block.specs.Block.{with_wired, board_of, board_sound};

use domain_region::Word;
use sizes::{BLOCK_SIZE, FILES_SIZE};

pub fn read_done(state: &mut [u32; BLOCK_SIZE], child: bool, word: Word) -> u32
    requires { Within word × (board_sound (board_of state.old) ≡ true) }
    ensures { (result ≡ read_in (board_of state.old).wired child word)
        × (board_of state.new ≡ with_wired (board_of state.old)
        (read_call (board_of state.old).wired child word).wired) }
{
    let (_, wired) = state.split_at_mut(FILES_SIZE);
    wired::read(wired.first_chunk_mut().unwrap(), child, word)
}
