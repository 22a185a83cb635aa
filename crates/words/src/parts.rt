// The bytes of a 32-bit word, the halves of a 64-bit one, and fields by shifts and masks.
ghost use Rattle.std.specs.Prelude.{◌≡◌, ◌<◌, ◌^◌, ◌*◌};
ghost use Rattle.words.specs.Parts.{reversed, low, high, joined, field_of, packed};

#[tactic(auto, unfolding(crate::specs::Parts::reversed))]
pub fn reversed32(w: u32) -> u32
    ensures { result ≡ reversed w }
{
    w.swap_bytes()
}

#[tactic(auto, unfolding(crate::specs::Parts::low))]
pub fn low32(w: u64) -> u32
    ensures { result ≡ low w }
{
    (w % 4294967296) as u32
}

#[tactic(auto, unfolding(crate::specs::Parts::high))]
pub fn high32(w: u64) -> u32
    ensures { result ≡ high w }
{
    (w >> 32) as u32
}

pub fn joined64(lo: u32, hi: u32) -> u64
    ensures { result ≡ joined lo hi }
{
    ((hi as u64) << 32) | (lo as u64)
}

// The `size` bits of `w` from bit `at` on.
pub fn field32(w: u32, at: u32, size: u32) -> u32
    requires { (at < 32) × (size < 32) }
    ensures { result ≡ field_of w at size }
{
    (w >> at) & ((1 << size) - 1)
}

// `hi` from bit `at` on, above `lo`.
pub fn packed32(hi: u32, at: u32, lo: u32) -> u32
    requires { (at < 32) × (lo < 2 ^ at) × (hi * 2 ^ at < 2 ^ 32) }
    ensures { result ≡ packed hi at lo }
{
    (hi << at) | lo
}
