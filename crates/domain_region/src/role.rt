// The registers that are not treated as all others: claimi when it is read, sourcecfg and genmsi when they
// are written. The functions that read, write and send ask here, so that the list of registers stands once.
ghost use Rattle.std.specs.Prelude.{◌≡◌};
ghost use Rattle.domain_region.specs.Role.{role_of};

use super::Word;

#[derive(Clone, Copy)]
pub enum Role {
    // claimi of the hart 0 to 3: a read of it claims
    Claims(u64),
    // sourcecfg of the source 1 to 63: a write to it concerns both domains
    Configures(u64),
    // genmsi: a write to it sends at once
    Generates,
    // every other register
    Plain,
}

pub fn role_of(word: Word) -> Role
    ensures { result ≡ role_of word }
{
    match word {
        Word::Claimi(h) => Role::Claims(h),
        Word::Sourcecfg(i) => Role::Configures(i),
        Word::Genmsi => Role::Generates,
        _ => Role::Plain,
    }
}
