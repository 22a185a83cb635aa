// The board's block of 650 words: its state rules, and its start.
#![tactic(auto)]

ghost use Rattle.std.specs.Prelude.{◌≡◌, ◌<◌, replicate};
ghost use Rattle.sizes.specs.Sizes.{file_count, files_size};
ghost use Rattle.file_select.specs.Deliveries.{from_wired};
ghost use Rattle.file.specs.Parts.{with_delivery};
ghost use Rattle.files.specs.Files.{files_of, the_file, with_file};
ghost use Rattle.board_block.specs.Block.{board_of, board_sound};
ghost use Rattle.board_block.specs.Start.{start_files_from, start_board};

use file_select::FROM_WIRED;
use sizes::{BLOCK_SIZE, FILE_SIZE, FILES_SIZE, HART_COUNT, HART_FILES, WIRED_SIZE};

pub fn sound(state: &[u32; BLOCK_SIZE]) -> bool
    ensures { result ≡ board_sound (board_of state.now) }
{
    let wired: &[u32; WIRED_SIZE] = state.last_chunk().unwrap();
    wired_rules::sound(wired) && files::sound(state.first_chunk().unwrap())
}

// File k takes its signals from the wired controller; nothing else changes.
fn put_signal(files: &mut [u32; FILES_SIZE], k: usize)
    requires { k < file_count }
    ensures { files_of files.new
        ≡ with_file (files_of files.old) k
        (with_delivery (the_file (files_of files.old) k) from_wired) }
{
    files[FILE_SIZE * k] = FROM_WIRED;
}

// Files 0 and 1 of each hart take their signals from the wired controller; everything else is 0.
fn start_files(files: &mut [u32; FILES_SIZE])
    requires { files.old ≡ replicate files_size 0 }
    ensures { files_of files.new ≡ start_files_from 0 file_count }
{
    for hart in 0..HART_COUNT {
        put_signal(files, HART_FILES * hart);
        put_signal(files, HART_FILES * hart + 1);
    }
}

pub fn start(state: &mut [u32; BLOCK_SIZE])
    ensures { board_of state.new ≡ start_board }
{
    state.fill(0);
    let (files, _) = state.split_at_mut(FILES_SIZE);
    start_files(files.first_chunk_mut().unwrap());
}
