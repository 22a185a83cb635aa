// The signals of a hart's files: bit f for file f.
ghost use Rattle.std.specs.Prelude.{◌≡◌, ◌<◌};
ghost use Rattle.sizes.specs.Sizes.{hart_count, hart_files};
ghost use Rattle.board_block.specs.Block.{board_of};
ghost use Rattle.board_call.specs.Change.{signal_at, signals_to};

use file_select::FROM_WIRED;
use sizes::{BLOCK_SIZE, FIRST_GUEST, HART_FILES};

// A file with delivery 1 signals by itself; file 0 or 1 may take its domain's signal.
fn signal_at(state: &[u32; BLOCK_SIZE], hart: usize, file: usize) -> bool
    requires { (hart < hart_count) × (file < hart_files) }
    ensures { result ≡ signal_at (board_of state.now) hart file }
{
    let f = files::load(state.first_chunk().unwrap(), HART_FILES * hart + file);
    if f.signals() {
        return true;
    }
    if FIRST_GUEST <= file {
        return false;
    }
    if f.delivery != FROM_WIRED {
        return false;
    }
    wired_registers::signal(state.last_chunk().unwrap(), file == 1, hart)
}

pub fn all_signals(state: &[u32; BLOCK_SIZE], hart: usize) -> u32
    requires { hart < hart_count }
    ensures { result ≡ signals_to (board_of state.now) hart hart_files }
{
    let mut word = 0;
    for file in 0..HART_FILES {
        word = words::put_bit(word, file as u32, signal_at(state, hart, file));
    }
    word
}
