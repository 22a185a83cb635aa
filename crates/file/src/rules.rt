// A file's own state rules.
ghost use Rattle.std.specs.Prelude.{◌≡◌};
ghost use Rattle.file.specs.Rules.{file_sound};
ghost use Rattle.sizes.specs.Sizes.{identities};

use super::File;
use file_select::delivery_legal;
use sizes::IDENTITIES;

impl File {
    // No test is left out when one before it fails: without branches all are made in fewer instructions.
    pub fn sound(self, guest: bool) -> bool
        ensures { result ≡ file_sound identities guest self }
    {
        delivery_legal(guest, self.delivery as u64)
            & (self.threshold <= IDENTITIES)
            & !words::has_bit(self.pending[0], 0)
            & !words::has_bit(self.enable[0], 0)
    }
}
