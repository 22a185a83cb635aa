// The messages that a call has logged reach their files: the one place where a call delivers.
ghost use Rattle.std.specs.Prelude.{◌≡◌, ◌≤◌, take};
ghost use Rattle.sizes.specs.Sizes.{log_size};
ghost use Rattle.files.specs.Files.{Named};
ghost use Rattle.board_block.specs.Block.{board_of};
ghost use Rattle.board_call.specs.Outcome.{delivered};

use sizes::{BLOCK_SIZE, FILES_SIZE, LOG_SIZE};

// The first `count` words of `log`, in order. The log stays as it is, and is lent to be changed all the same:
// lent to be read alone, its address would be loaded byte by byte on RISC-V.
pub fn delivered(state: &mut [u32; BLOCK_SIZE], log: &mut [u32; LOG_SIZE], count: usize)
    requires { (count ≤ log_size) × Named log.old count }
    ensures { (board_of state.new
        ≡ delivered (board_of state.old) (take count log.old))
        × (log.new ≡ log.old) }
{
    let (files, _) = state.split_at_mut(FILES_SIZE);
    files::deliver(files.first_chunk_mut().unwrap(), log, count);
}
