// The state rules on the bits of a domain's sources, tested for all of them at once: each set is one word,
// and bit i of it is source i.
#![tactic(auto)]

ghost use Rattle.std.specs.Prelude.{◌≡◌, not, ◌&&◌, ◌||◌, ◌<◌, ◌^◌};
ghost use Rattle.sizes.specs.Sizes.{slot_count};
ghost use Rattle.words.specs.Bits.{has_bit};
ghost use Rattle.words.specs.Parts.{joined};
ghost use Rattle.words.specs.Every.{every};

use words::{union64, without64};
use words_masks::common64;

// The two words of a set as one.
pub fn one_word(low: u32, high: u32) -> u64
    ensures { (result ≡ joined low high) × (low < 2 ^ 32) }
{
    words::joined64(low, high)
}

// Inactive sources have no bits, source 0 among them.
pub fn none_unused(active: u64, pending: u64, enable: u64) -> bool
    ensures { result ≡ every (λ j. has_bit active j || (not (has_bit pending j) && not (has_bit enable j)))
        0 slot_count }
{
    without64(union64(pending, enable), active) == 0
}

// Where the domain sends, nothing is pending and enabled.
pub fn none_unsent(sends: bool, pending: u64, enable: u64) -> bool
    ensures { result ≡ every (λ j. not (sends && has_bit pending j && has_bit enable j)) 0 slot_count }
{
    !sends | (common64(pending, enable) == 0)
}

// No level source is pending whose rectified value is low.
pub fn none_low(straight: u64, inverted: u64, wires: u64, pending: u64) -> bool
    ensures { result ≡ every (λ j. not (has_bit pending j && ((has_bit straight j && not (has_bit wires j))
        || (has_bit inverted j && has_bit wires j)))) 0 slot_count }
{
    common64(
        pending,
        union64(without64(straight, wires), common64(inverted, wires)),
    ) == 0
}

// In direct mode every level source is pending whose rectified value is high.
pub fn none_missing(messages: bool, straight: u64, inverted: u64, wires: u64, pending: u64) -> bool
    ensures { result ≡ every (λ j. messages || not (((has_bit straight j && has_bit wires j)
        || (has_bit inverted j && not (has_bit wires j))) && not (has_bit pending j))) 0 slot_count }
{
    messages
        | (without64(
            union64(common64(straight, wires), without64(inverted, wires)),
            pending,
        ) == 0)
}
