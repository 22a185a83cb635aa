// A file's top interrupt, its claim, and its signal to the hart.
ghost use Rattle.std.specs.Prelude.{◌≡◌, ◌≤◌};
ghost use Rattle.sizes.specs.Sizes.{identities};
ghost use Rattle.file.specs.Top.{top_identity, top_of, claimed, signals};

use super::File;
use file_search::lowest_shared;

#[derive(Clone, Copy)]
pub struct Claimed {
    pub top: u32,
    pub file: File,
}

impl File {
    // The lowest identity that qualifies, or 0. If the threshold shuts out the lowest that is pending and
    // enabled, it shuts out every higher one; if there is none, both ways give 0.
    pub fn top_identity(self) -> u32
        ensures value { result ≡ top_identity identities self }
        ensures low { result ≤ identities }
    {
        let i = lowest_shared(self.pending, self.enable);
        if words::passes(self.threshold, i) {
            i
        } else {
            0
        }
    }

    #[tactic(auto, unfolding(crate::specs::Top::top_of))]
    pub fn top(self) -> u32
        ensures { result ≡ top_of identities self }
    {
        let i = self.top_identity();
        i * 65536 + i
    }

    pub fn claim(mut self) -> Claimed
        ensures { (result.top ≡ top_of identities self) × (result.file ≡ claimed identities self) }
    {
        let i = self.top_identity();
        if i == 0 {
            return Claimed { top: 0, file: self };
        }
        let at = (i / 32) as usize;
        self.pending[at] = words::without_bit(self.pending[at], i % 32);
        Claimed {
            top: i * 65536 + i,
            file: self,
        }
    }

    // Whether the file signals by itself: its delivery is 1 and it has a top. With delivery 0x40000000 the
    // signal is that of its domain, which a file does not know: the board has it.
    #[tactic(auto, unfolding(crate::specs::Top::top_of, crate::specs::Top::signals))]
    pub fn signals(self) -> bool
        ensures { result ≡ signals identities self }
    {
        self.delivery == 1 && self.top_identity() != 0
    }
}
