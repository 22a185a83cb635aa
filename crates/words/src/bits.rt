// One bit of a 32-bit word, and all bits of a 64-bit one.
ghost use Rattle.std.specs.Prelude.{◌≡◌, ◌<◌};
ghost use Rattle.words.specs.Bits.{has_bit, with_bit, without_bit, put_bit, union, without};

pub fn has_bit(w: u32, k: u32) -> bool
    requires { k < 32 }
    ensures { result ≡ has_bit w k }
{
    (w >> k) & 1 == 1
}

pub fn with_bit(w: u32, k: u32) -> u32
    requires { k < 32 }
    ensures { result ≡ with_bit w k }
{
    w | (1 << k)
}

pub fn without_bit(w: u32, k: u32) -> u32
    requires { k < 32 }
    ensures { result ≡ without_bit w k }
{
    w & !(1 << k)
}

#[tactic(auto, unfolding(crate::specs::Bits::put_bit))]
pub fn put_bit(w: u32, k: u32, on: bool) -> u32
    requires { k < 32 }
    ensures { result ≡ put_bit w k on }
{
    if on {
        with_bit(w, k)
    } else {
        without_bit(w, k)
    }
}

#[tactic(auto, unfolding(crate::specs::Bits::union))]
pub fn union64(w: u64, v: u64) -> u64
    ensures { result ≡ union w v }
{
    w | v
}

pub fn without64(w: u64, v: u64) -> u64
    ensures { result ≡ without w v }
{
    w & !v
}
