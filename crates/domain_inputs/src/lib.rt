// What in_clrip reads: the rectified values of a domain's sources, a word of them at a time.
#![tactic(auto)]

ghost use Rattle.std.specs.Prelude.{◌≡◌, ◌+◌, ◌≤◌, ◌<◌};
ghost use Rattle.sizes.specs.Sizes.{source_set_size};
ghost use Rattle.domain.specs.Domain.{domain_of};
ghost use Rattle.domain_inputs.specs.Inputs.{input_word};
ghost use Rattle.domain_inputs.specs.Gathering.{RectifiedTo};

use sizes::{DOMAIN_SIZE, SOURCE_SET_SIZE};
use words::put_bit;

// The rectified values of a word's sources, were every wire high, and were every wire low.
#[derive(Clone, Copy)]
pub struct Rectified {
    pub high: u32,
    pub low: u32,
}

fn with_source(mut x: Rectified, part: &[u32; DOMAIN_SIZE], k: usize, b: u32) -> Rectified
    requires { (k < source_set_size) × (b < 32) × RectifiedTo (domain_of part.now) k b x }
    ensures { RectifiedTo (domain_of part.now) k (b + 1) result }
{
    let s = domain::load(part, 32 * k + (b as usize));
    x.high = put_bit(x.high, b, source_mode::rectified(s.mode, true));
    x.low = put_bit(x.low, b, source_mode::rectified(s.mode, false));
    x
}

// Eight sources more: a loop this short is unrolled whole, one of 32 is not.
fn with_eight(mut x: Rectified, part: &[u32; DOMAIN_SIZE], k: usize, b: u32) -> Rectified
    requires { (k < source_set_size) × (b + 8 ≤ 32) × RectifiedTo (domain_of part.now) k b x }
    ensures { RectifiedTo (domain_of part.now) k (b + 8) result }
{
    for j in 0..8 {
        x = with_source(x, part, k, b + j);
    }
    x
}

fn gather(part: &[u32; DOMAIN_SIZE], k: usize) -> Rectified
    requires { k < source_set_size }
    ensures { RectifiedTo (domain_of part.now) k 32 result }
{
    let mut x = Rectified { high: 0, low: 0 };
    for eight in 0..4 {
        x = with_eight(x, part, k, 8 * eight);
    }
    x
}

pub fn input_word(part: &[u32; DOMAIN_SIZE], wires: [u32; SOURCE_SET_SIZE], k: usize) -> u32
    requires { k < source_set_size }
    ensures { result ≡ input_word (domain_of part.now) wires k }
{
    let x = gather(part, k);
    let levels = wires[k] as u64;
    let word = words::low32(words::union64(
        words_masks::common64(x.high as u64, levels),
        words::without64(x.low as u64, levels),
    ));
    // source 0 is none: its slot holds domaincfg
    if k == 0 {
        return words::without_bit(word, 0);
    }
    word
}
