// One number for all that is lent, so that an answer's line shows a change anywhere.
ghost use Rattle.std.specs.Prelude.{◌≡◌};
ghost use Rattle.cases.specs.Digest.{digested, digest_of, halves};

use words::{high32, low32};

fn step(digest: u32, word: u32) -> u32
    ensures { result ≡ digested digest word }
{
    low32(digest as u64 * 31 + word as u64)
}

pub(crate) fn of_words(digest: u32, words: &[u32]) -> u32
    ensures { result ≡ digest_of digest words.now }
{
    let mut d = digest;
    for &word in words {
        d = step(d, word);
    }
    d
}

// A number counts as its low half, then its high one.
pub(crate) fn of_numbers(digest: u32, numbers: &[u64]) -> u32
    ensures { result ≡ digest_of digest (halves numbers.now) }
{
    let mut d = digest;
    for &n in numbers {
        d = step(step(d, low32(n)), high32(n));
    }
    d
}
