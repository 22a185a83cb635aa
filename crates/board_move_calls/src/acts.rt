// What one access does, case by case.
ghost use Rattle.std.specs.Prelude.{◌≡◌, true};
ghost use Rattle.board_move_steps.specs.Steps.{act_within};
ghost use Rattle.board_block.specs.Block.{board_of, board_sound};
ghost use Rattle.board_call.specs.Move.{acted};

use super::guest::Guest;
use super::registers::{put, save};
use super::targets::retarget;
use board_move_steps::Act;
use file::Access;
use sizes::{BLOCK_SIZE, SAVED_SIZE};

pub fn perform(
    state: &mut [u32; BLOCK_SIZE],
    saved: &mut [u64; SAVED_SIZE],
    old_file: Guest,
    new_file: Guest,
    act: Act,
)
    requires { (board_sound (board_of state.old) ≡ true) × (act_within act ≡ true) }
    ensures { (board_of state.new ≡ (acted act old_file.hart old_file.file new_file.hart new_file.file
        (board_of state.old) saved.old).board)
        × (saved.new ≡ (acted act old_file.hart old_file.file new_file.hart new_file.file
        (board_of state.old) saved.old).saved) }
{
    match act {
        Act::Save(select, place) => save(state, saved, old_file, select, place),
        Act::Zero(new, select) => {
            if new {
                put(state, new_file, Access::Write, select, 0);
                return;
            }
            put(state, old_file, Access::Write, select, 0)
        }
        Act::Target(source) => retarget(state, old_file, new_file, source),
        Act::Put(kind, select, place) => put(state, new_file, kind, select, saved[place]),
    }
}
