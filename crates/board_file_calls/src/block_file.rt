// One file of the block, by hart and file.
ghost use Rattle.std.specs.Prelude.{◌≡◌, true};
ghost use Rattle.files.specs.Files.{file_number, the_file, with_file};
ghost use Rattle.board_block.specs.Block.{Board, with_files, board_of};
ghost use Rattle.board_call.specs.Answer.{Refuses};
ghost use Rattle.board_call.specs.Calls.{numbered};
ghost use Rattle.board_call.specs.Numbers.{is_file, is_page_address};
ghost use Rattle.board_call.specs.Refusal.{name_refusal_by};

use board_call::{Refusal, check_numbers, is_file, is_page_address};
use file::File;
use sizes::{BLOCK_SIZE, FILES_SIZE, HART_FILES};

// There is such a file, and such an address of its page.
pub(crate) fn check_page(hart: u64, file: u64, address: u64) -> Result<(), Refusal>
    ensures { (b : Board) → Refuses result (name_refusal_by
        (numbered (is_file hart file) (is_page_address address) true) b) }
{
    check_numbers(is_file(hart, file), is_page_address(address), true)
}

pub fn load_file(state: &[u32; BLOCK_SIZE], hart: u64, file: u64) -> File
    requires { is_file hart file ≡ true }
    ensures { result ≡ the_file (board_of state.now).files (file_number hart file) }
{
    files::load(
        state.first_chunk().unwrap(),
        (HART_FILES as u64 * hart + file) as usize,
    )
}

pub fn store_file(state: &mut [u32; BLOCK_SIZE], hart: u64, file: u64, f: File)
    requires { is_file hart file ≡ true }
    ensures { board_of state.new
        ≡ with_files (board_of state.old)
        (with_file (board_of state.old).files (file_number hart file) f) }
{
    let (files, _) = state.split_at_mut(FILES_SIZE);
    files::store(
        files.first_chunk_mut().unwrap(),
        (HART_FILES as u64 * hart + file) as usize,
        f,
    );
}
