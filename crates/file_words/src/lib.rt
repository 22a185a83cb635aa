// A file's 18 words in a lent block: delivery, threshold, eight of pending, eight of enable.
#![tactic(auto)]

ghost use Rattle.std.specs.Prelude.{◌≡◌, ◌+◌, ◌≤◌, length, take, drop};
ghost use Rattle.std.proofs.lemmas.List.Edits.{sets};
ghost use Rattle.sizes.specs.Sizes.{file_set_size, file_size};
ghost use Rattle.file_words.specs.Stored.{file_at, put_file};

use file::File;
use sizes::{ENABLE_PLACE, FILE_SET_SIZE, PENDING_PLACE, THRESHOLD_PLACE};

// Word by word, here and in `put_eight`: a copy of a part of a lent block, whose place the compiler does not
// know, goes byte by byte on RISC-V, and with a loop a register's access has a quarter more code there.
fn eight(block: &[u32], at: usize) -> [u32; FILE_SET_SIZE]
    requires { at + file_set_size ≤ length block.now }
    ensures { result ≡ take file_set_size (drop at block.now) }
{
    [
        block[at],
        block[at + 1],
        block[at + 2],
        block[at + 3],
        block[at + 4],
        block[at + 5],
        block[at + 6],
        block[at + 7],
    ]
}

#[tactic(auto, unfolding(crate::specs::Stored::file_at))]
pub fn load(block: &[u32], at: usize) -> File
    requires { at + file_size ≤ length block.now }
    ensures { result ≡ file_at block.now at }
{
    File {
        delivery: block[at],
        threshold: block[at + THRESHOLD_PLACE],
        pending: eight(block, at + PENDING_PLACE),
        enable: eight(block, at + ENABLE_PLACE),
    }
}

fn put_eight(block: &mut [u32], at: usize, ws: [u32; FILE_SET_SIZE])
    requires { at + file_set_size ≤ length block.old }
    ensures { block.new ≡ sets block.old at ws }
{
    block[at] = ws[0];
    block[at + 1] = ws[1];
    block[at + 2] = ws[2];
    block[at + 3] = ws[3];
    block[at + 4] = ws[4];
    block[at + 5] = ws[5];
    block[at + 6] = ws[6];
    block[at + 7] = ws[7];
}

pub fn store(block: &mut [u32], at: usize, f: File)
    requires { at + file_size ≤ length block.old }
    ensures { block.new ≡ put_file block.old at f }
{
    block[at] = f.delivery;
    block[at + THRESHOLD_PLACE] = f.threshold;
    put_eight(block, at + PENDING_PLACE, f.pending);
    put_eight(block, at + ENABLE_PLACE, f.enable);
}
