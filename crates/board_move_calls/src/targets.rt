// The child domain of the block: its delivery mode, and a target that names the old file.
ghost use Rattle.std.specs.Prelude.{◌≡◌, true, ◌≤◌, ◌<◌};
ghost use Rattle.sizes.specs.Sizes.{source_count};
ghost use Rattle.domain_values.specs.Values.{domaincfg_mark};
ghost use Rattle.domain.specs.Domain.{domaincfg_of, by_messages};
ghost use Rattle.wired_state.specs.Wires.{wired_of, domain_in};
ghost use Rattle.board_block.specs.Block.{with_wired, board_of, board_sound};
ghost use Rattle.board_call.specs.Move.{retargeted_in};

use super::guest::Guest;
use board_move_steps::{names_file, renamed};
use domain_region::Word;
use sizes::{BLOCK_SIZE, FILES_SIZE, WIRED_SIZE};
use wired_state::domain_part;

pub fn by_messages(state: &[u32; BLOCK_SIZE]) -> bool
    ensures { result ≡ by_messages (board_of state.now).wired.child }
{
    domain::by_messages(domain_part(state.last_chunk().unwrap(), true))
}

// In the words of the wired controller. The target is read, and written anew if it names the old file.
fn rewrite(w: &mut [u32; WIRED_SIZE], old_file: Guest, new_file: Guest, source: u64)
    requires { (domaincfg_of (domain_in (wired_of w.old) true) < domaincfg_mark)
        × (1 ≤ source) × (source ≤ source_count) }
    ensures { wired_of w.new
        ≡ retargeted_in old_file.hart old_file.file new_file.hart new_file.file (wired_of w.old) source }
{
    let target = wired_registers::read(w, true, Word::Target(source));
    if names_file(target, old_file.hart, old_file.file) {
        wired_registers::write(
            w,
            true,
            Word::Target(source),
            renamed(target, new_file.hart, new_file.file),
        );
    }
}

pub fn retarget(state: &mut [u32; BLOCK_SIZE], old_file: Guest, new_file: Guest, source: u64)
    requires { (board_sound (board_of state.old) ≡ true)
        × (1 ≤ source) × (source ≤ source_count) }
    ensures { board_of state.new
        ≡ with_wired (board_of state.old)
        (retargeted_in old_file.hart old_file.file new_file.hart new_file.file
        (board_of state.old).wired source) }
{
    let (_, wired) = state.split_at_mut(FILES_SIZE);
    rewrite(wired.first_chunk_mut().unwrap(), old_file, new_file, source);
}
