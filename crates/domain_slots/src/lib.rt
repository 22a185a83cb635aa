// The sourcecfg and target words of a domain's sources, in one pass: what they break, and which sources are
// active. No test leaves early.
#![tactic(auto)]

ghost use Rattle.std.specs.Prelude.{◌≡◌, true, false, ◌<◌, ◌+◌};
ghost use Rattle.sizes.specs.Sizes.{slot_count};
ghost use Rattle.domain.specs.Domain.{domain_of, by_messages};
ghost use Rattle.source_rules.specs.SourceParts.{occupied};
ghost use Rattle.domain_slots.specs.Slots.{SoFar, Slotted};

use sizes::{DOMAIN_SIZE, SOURCE_COUNT};
use source_mode::{DELEGATED_WORD, LEVEL0, LEVEL1};
use source_rules::{mode_fault, target_fault};
use words_masks::with_bit64;

// What the sources of a domain give, each set as one word: bit i is source i.
#[derive(Clone, Copy)]
pub struct Gathered {
    // 0 exactly if each sourcecfg and target word is in its range.
    pub faults: u32,
    pub active: u64,
    pub delegated: u64,
    // The sources with Level1, whose rectified value is the wire, and with Level0, where it is its opposite.
    pub straight: u64,
    pub inverted: u64,
}

fn occupy(g: Gathered, child: bool, messages: bool, mode: u32, target: u32, i: u32) -> Gathered
    requires { (occupied child mode ≡ true) × (i < slot_count) }
    ensures { Slotted child messages mode target i g result }
{
    let g = Gathered {
        faults: g.faults | target_fault(child, messages, target) | mode_fault(mode),
        active: with_bit64(g.active, i),
        ..g
    };
    match mode {
        LEVEL1 => Gathered {
            straight: with_bit64(g.straight, i),
            ..g
        },
        LEVEL0 => Gathered {
            inverted: with_bit64(g.inverted, i),
            ..g
        },
        _ => g,
    }
}

// One source more. Of an inactive one only the target is looked at: it has to be 0.
fn slot(g: Gathered, child: bool, messages: bool, mode: u32, target: u32, i: u32) -> Gathered
    requires { i < slot_count }
    ensures { Slotted child messages mode target i g result }
{
    if mode == 0 {
        return Gathered {
            faults: g.faults | target,
            ..g
        };
    }
    if !child & (mode == DELEGATED_WORD) {
        return Gathered {
            faults: g.faults | target,
            delegated: with_bit64(g.delegated, i),
            ..g
        };
    }
    occupy(g, child, messages, mode, target, i)
}

fn slot_at(
    g: Gathered,
    part: &[u32; DOMAIN_SIZE],
    child: bool,
    messages: bool,
    i: usize,
) -> Gathered
    requires { (0 < i) × (i < slot_count) × (messages ≡ by_messages (domain_of part.now))
        × SoFar child (domain_of part.now) i g }
    ensures { SoFar child (domain_of part.now) (i + 1) result }
{
    let s = domain::load(part, i);
    slot(g, child, messages, s.mode, s.target, i as u32)
}

// Seven sources a turn: the turn itself then costs little.
pub fn gather(part: &[u32; DOMAIN_SIZE], child: bool) -> Gathered
    ensures { SoFar child (domain_of part.now) slot_count result }
{
    let messages = domain::by_messages(part);
    let mut g = Gathered {
        faults: 0,
        active: 0,
        delegated: 0,
        straight: 0,
        inverted: 0,
    };
    for seven in 0..SOURCE_COUNT / 7 {
        let i = 7 * seven + 1;
        g = slot_at(g, part, child, messages, i);
        g = slot_at(g, part, child, messages, i + 1);
        g = slot_at(g, part, child, messages, i + 2);
        g = slot_at(g, part, child, messages, i + 3);
        g = slot_at(g, part, child, messages, i + 4);
        g = slot_at(g, part, child, messages, i + 5);
        g = slot_at(g, part, child, messages, i + 6);
    }
    g
}
