// What a sourcecfg word says of a source: whether it is active, how its wire is read, what a write keeps.
#![tactic(auto)]

ghost use Rattle.std.specs.Prelude.{◌≡◌};
ghost use Rattle.source_mode.specs.Mode.{is_active, is_level, is_rectified, kept_mode, source_word};

// Bit D of a sourcecfg word, and what is stored for a delegated source.
const DELEGATED_BIT: u32 = 10;

pub const DELEGATED_WORD: u32 = 1024;

// The modes that read the wire.
const EDGE1: u32 = 4;

const EDGE0: u32 = 5;

pub const LEVEL1: u32 = 6;

pub const LEVEL0: u32 = 7;

#[tactic(auto, unfolding(crate::specs::Mode::is_active))]
pub fn active(mode: u32) -> bool
    ensures { result ≡ is_active mode }
{
    mode != 0 && mode < DELEGATED_WORD
}

#[tactic(auto, unfolding(crate::specs::Mode::is_level))]
pub fn level(mode: u32) -> bool
    ensures { result ≡ is_level mode }
{
    matches!(mode, LEVEL1 | LEVEL0)
}

// Edge1 and Level1 are high with the wire, Edge0 and Level0 while it is low, and no other mode ever is.
#[tactic(auto, unfolding(crate::specs::Mode::is_rectified))]
pub fn rectified(mode: u32, wire: bool) -> bool
    ensures { result ≡ is_rectified mode wire }
{
    match mode {
        EDGE1 | LEVEL1 => wire,
        EDGE0 | LEVEL0 => !wire,
        _ => false,
    }
}

#[tactic(auto, unfolding(crate::specs::Mode::kept_mode))]
pub fn kept_mode(value: u32) -> u32
    ensures { result ≡ kept_mode value }
{
    match words::field32(value, 0, 3) {
        2 | 3 => 0,
        mode => mode,
    }
}

// What a sourcecfg write stores. `has` says that the child has the source.
#[tactic(auto, unfolding(crate::specs::Mode::source_word))]
pub fn source_word(child: bool, has: bool, value: u32) -> u32
    ensures { result ≡ source_word child has value }
{
    let delegates = words::has_bit(value, DELEGATED_BIT);
    if child {
        return if has && !delegates {
            kept_mode(value)
        } else {
            0
        };
    }
    if delegates {
        DELEGATED_WORD
    } else {
        kept_mode(value)
    }
}
