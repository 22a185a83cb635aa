// The 20 message files in their 360 lent words: one file, the messages of a log, the files' state rules.
#![tactic(auto)]

ghost use Rattle.std.specs.Prelude.{◌≡◌, ◌*◌, ◌<◌};
ghost use Rattle.sizes.specs.Sizes.{hart_count, hart_files, file_count};
ghost use Rattle.words.specs.Every.{every};
ghost use Rattle.files.specs.Files.{files_of, the_file, with_file, is_guest, sound_at, files_sound};

use file::File;
use sizes::{FILE_SIZE, FILES_SIZE, HART_COUNT, HART_FILES};

mod messages;

pub use messages::deliver;

#[tactic(auto, using(crate::proofs::FilesLaws::loaded))]
pub fn load(files: &[u32; FILES_SIZE], k: usize) -> File
    requires { k < file_count }
    ensures { result ≡ the_file (files_of files.now) k }
{
    file_words::load(files, FILE_SIZE * k)
}

pub fn store(files: &mut [u32; FILES_SIZE], k: usize, f: File)
    requires { k < file_count }
    ensures { files_of files.new ≡ with_file (files_of files.old) k f }
{
    file_words::store(files, FILE_SIZE * k, f);
}

#[tactic(auto, unfolding(crate::specs::Files::sound_at))]
fn file_sound(files: &[u32; FILES_SIZE], k: usize, guest: bool) -> bool
    requires { (k < file_count) × (guest ≡ is_guest k) }
    ensures { result ≡ sound_at (files_of files.now) k }
{
    load(files, k).sound(guest)
}

// The files of a hart: its machine's and supervisor's, then its guests'.
#[tactic(auto, unfolding(crate::specs::Files::is_guest))]
fn hart_sound(files: &[u32; FILES_SIZE], hart: usize) -> bool
    requires { hart < hart_count }
    ensures { result ≡ every (sound_at (files_of files.now)) (hart_files * hart) hart_files }
{
    let k = HART_FILES * hart;
    file_sound(files, k, false)
        & file_sound(files, k + 1, false)
        & file_sound(files, k + 2, true)
        & file_sound(files, k + 3, true)
        & file_sound(files, k + 4, true)
}

pub fn sound(files: &[u32; FILES_SIZE]) -> bool
    ensures { result ≡ files_sound (files_of files.now) }
{
    let mut sound = true;
    for hart in 0..HART_COUNT {
        sound &= hart_sound(files, hart);
    }
    sound
}
