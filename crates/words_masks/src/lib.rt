// Sets of numbers below 64, each as one word: a test of all members at once takes an operation or two.
#![tactic(auto)]

ghost use Rattle.std.specs.Prelude.{◌≡◌, ◌<◌};
ghost use Rattle.words.specs.Bits.{with_bit};
ghost use Rattle.words_masks.specs.Masks.{common};

mod members;

pub use members::Members;

pub fn with_bit64(w: u64, k: u32) -> u64
    requires { k < 64 }
    ensures { result ≡ with_bit w k }
{
    w | (1 << k)
}

#[tactic(auto, unfolding(crate::specs::Masks::common))]
pub fn common64(w: u64, v: u64) -> u64
    ensures { result ≡ common w v }
{
    w & v
}
