// The lowest identity that two sets of a file share: a search bit after bit. 01, "One message file".
#![tactic(auto)]

ghost use Rattle.std.specs.Prelude.{◌≡◌, ◌-◌, ◌<◌};
ghost use Rattle.file_search.specs.Search.{first_bit, lowest_shared};

use sizes::FILE_SET_SIZE;

// The lowest bit of `word` from bit `from` on that is 1, or 32: `rest` has the bits from `k` on.
fn first_bit(word: u32, from: u32) -> u32
    requires { from < 32 }
    ensures { result ≡ first_bit word from (32 - from) }
{
    let mut rest = word >> from;
    let mut k = from;
    while rest != 0 {
        if words::has_bit(rest, 0) {
            return k;
        }
        rest = rest >> 1;
        k += 1;
    }
    32
}

// The lowest identity that is in both sets, or 0. Bit 0 of the first word is no identity.
pub fn lowest_shared(pending: [u32; FILE_SET_SIZE], enable: [u32; FILE_SET_SIZE]) -> u32
    ensures { result ≡ lowest_shared pending enable }
{
    let mut from: u32 = 1;
    for at in 0..FILE_SET_SIZE {
        let k = first_bit(pending[at] & enable[at], from);
        if k < 32 {
            return (at as u32) * 32 + k;
        }
        from = 0;
    }
    0
}
