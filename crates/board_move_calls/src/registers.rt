// The registers of a guest's file in the block, and the saved numbers that a move keeps of them.
ghost use Rattle.std.specs.Prelude.{◌≡◌, ◌<◌, set};
ghost use Rattle.sizes.specs.Sizes.{saved_size};
ghost use Rattle.file.specs.declared.register.Access.TheVariants as access;
ghost use Rattle.file.specs.Reply.{reply_value};
ghost use Rattle.board_block.specs.Block.{board_of};
ghost use Rattle.board_call.specs.Move.{register_on, with_one};

use super::guest::Guest;
use board_file_calls::{load_file, store_file};
use file::{Access, Accessed};
use sizes::{BLOCK_SIZE, SAVED_SIZE};

// Not yet stored.
fn accessed(
    state: &[u32; BLOCK_SIZE],
    guest: Guest,
    kind: Access,
    select: u64,
    value: u64,
) -> Accessed
    ensures { result ≡ register_on (board_of state.now) guest.hart guest.file kind select value }
{
    let f = load_file(state, guest.hart, guest.file);
    f.access(true, kind, select, value)
}

// A register is read into the saved numbers.
pub fn save(
    state: &[u32; BLOCK_SIZE],
    saved: &mut [u64; SAVED_SIZE],
    guest: Guest,
    select: u64,
    place: usize,
)
    requires { place < saved_size }
    ensures { saved.new ≡ set saved.old place
        (reply_value (register_on (board_of state.now) guest.hart guest.file access.Read select 0).answer) }
{
    let done = accessed(state, guest, Access::Read, select, 0);
    saved[place] = done.answer.unwrap_or(0);
}

// A register is written, or bits of it are set or cleared.
pub fn put(state: &mut [u32; BLOCK_SIZE], guest: Guest, kind: Access, select: u64, value: u64)
    ensures { board_of state.new ≡ with_one (board_of state.old) guest.hart guest.file
        (register_on (board_of state.old) guest.hart guest.file kind select value).file }
{
    let done = accessed(state, guest, kind, select, value);
    store_file(state, guest.hart, guest.file, done.file);
}
