// The members of a set, one after the other in rising order: from one bit that is set to the next.
ghost use Rattle.std.specs.Prelude.{◌≡◌, ◌-◌, ◌<◌};
ghost use Rattle.std.specs.Iterator.{YieldsFirst, item_count};
ghost use Rattle.words.specs.Bits.{has_bit};
ghost use Rattle.words_masks.specs.Members.{listed};

use std::marker::Model;

// Those that are left, seen as their list: bit 0 of `rest` is number `at`.
#[derive(Drop)]
pub struct Members {
    rest: u64,
    at: usize,
}

impl Model for Members {
    ghost use Rattle.std.specs.Prelude.{ℕ, List, ◌-◌, ◌*◌, ◌^◌, ◌<◌, ◌≤◌};
    ghost use Rattle.words.specs.Bits.{has_bit};
    ghost use Rattle.words_masks.specs.Members.{listed};

    ghost Value = { List ℕ };

    ghost view = { λ s. listed (has_bit (s.rest * 2 ^ s.at)) s.at (64 - s.at) };

    ghost invariant = { λ s. (s.at ≤ 64) × (s.rest * 2 ^ s.at < 2 ^ 64) };
}

impl Members {
    // The members of `set` from number `first` on.
    pub fn from(set: u64, first: usize) -> Members
        requires { first < 64 }
        ensures { result ≡ listed (has_bit set) first (64 - first) }
    {
        Members {
            rest: set >> first,
            at: first,
        }
    }
}

impl Iterator for Members {
    type Item = usize;

    ghost next_gives = { YieldsFirst (λ left. left) };

    ghost remaining = { item_count (λ left. left) };

    fn next(&mut self) -> Option<usize> {
        if self.rest == 0 {
            return None;
        }
        let zeros = u64::trailing_zeros(self.rest);
        let i = self.at + zeros as usize;
        self.rest = (self.rest >> zeros) >> 1;
        self.at = i + 1;
        Some(i)
    }
}
