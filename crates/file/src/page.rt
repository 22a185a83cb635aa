// A file's page: what a message write does to the file, and what a read gives.
ghost use Rattle.std.specs.Prelude.{◌≡◌};
ghost use Rattle.file.specs.Page.{arrived, page_written, page_read};
ghost use Rattle.sizes.specs.Sizes.{identities};

use super::File;
use sizes::IDENTITIES;

// The standard's names for the two offsets that take a number, by the order of its bytes.
const SETEIPNUM_LE: u64 = 0;

const SETEIPNUM_BE: u64 = 4;

impl File {
    // A message arrives: its identity becomes pending, whatever delivery is.
    #[tactic(auto, unfolding(crate::specs::Page::arrived), using(crate::proofs::PageLaws::set_words))]
    pub fn arrive(mut self, identity: u32) -> File
        ensures { result ≡ arrived identities self identity }
    {
        match identity {
            1..=IDENTITIES => {
                let at = (identity / 32) as usize;
                self.pending[at] = words::with_bit(self.pending[at], identity % 32);
                self
            }
            _ => self,
        }
    }

    #[tactic(auto, unfolding(crate::specs::Page::page_written))]
    pub fn page_write(self, offset: u64, value: u32) -> File
        ensures { result ≡ page_written identities self offset value }
    {
        match offset {
            SETEIPNUM_LE => self.arrive(value),
            SETEIPNUM_BE => self.arrive(words::reversed32(value)),
            _ => self,
        }
    }

    #[tactic(auto, unfolding(crate::specs::Page::page_read))]
    pub fn page_read(self, offset: u64) -> u32
        ensures { result ≡ page_read self offset }
    {
        0
    }
}
