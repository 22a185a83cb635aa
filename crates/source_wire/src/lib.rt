// The levels of the wires: two words, a bit for each source. 01, "The wired controller".
#![tactic(auto)]

ghost use Rattle.std.specs.Prelude.{◌≡◌, ◌<◌};
ghost use Rattle.sizes.specs.Sizes.{slot_count};
ghost use Rattle.words.specs.Sets.{member};

use sizes::SOURCE_SET_SIZE;

// The level of the wire of source `i`.
pub fn wire_at(wires: [u32; SOURCE_SET_SIZE], i: usize) -> bool
    requires { i < slot_count }
    ensures { result ≡ member wires i }
{
    words::has_bit(wires[i / 32], (i % 32) as u32)
}
