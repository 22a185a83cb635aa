// The messages of a log reach their files. Nowhere else does a sent message meet a file.
ghost use Rattle.std.specs.Prelude.{◌≡◌, ◌≤◌, ◌<◌, take};
ghost use Rattle.sizes.specs.Sizes.{hart_files, log_size};
ghost use Rattle.file_message.specs.Message.{file_in};
ghost use Rattle.files.specs.Files.{files_of, reached, all_reached, Named};

use super::{load, store};
use file_message::{file_in, hart_in, identity_in};
use sizes::{FILES_SIZE, HART_FILES, LOG_SIZE};

fn deliver_one(files: &mut [u32; FILES_SIZE], word: u32)
    requires { file_in word < hart_files }
    ensures { files_of files.new ≡ reached (files_of files.old) word }
{
    let identity = identity_in(word);
    // a file ignores identity 0
    if identity == 0 {
        return;
    }
    let hart = hart_in(word) as usize;
    let file = file_in(word) as usize;
    let k = HART_FILES * hart + file;
    let f = load(files, k);
    store(files, k, f.arrive(identity));
}

// The first `count` messages of `log` reach their files, in order.
pub fn deliver(files: &mut [u32; FILES_SIZE], log: &[u32; LOG_SIZE], count: usize)
    requires { (count ≤ log_size) × Named log.now count }
    ensures { files_of files.new ≡ all_reached (files_of files.old) (take count log.now) }
{
    for k in 0..count {
        deliver_one(files, log[k]);
    }
}
