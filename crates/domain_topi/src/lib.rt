// A hart's top interrupt: of the sources that count for it the one with the least priority number, the lowest
// among equals.
#![tactic(auto)]

ghost use Rattle.std.specs.Prelude.{◌≡◌, true, cond, ◌&&◌, ◌+◌, ◌*◌, ◌<◌, eqb};
ghost use Rattle.sizes.specs.Sizes.{hart_count, slot_count};
ghost use Rattle.source_target.specs.Target.{number_of};
ghost use Rattle.domain.specs.Domain.{domain_of};
ghost use Rattle.domain.specs.Slot.{source_at};
ghost use Rattle.domain.specs.Structure.{structure_at};
ghost use Rattle.domain_topi.specs.Top.{standing, eligible, precedes, top_source, topi_of};

use domain::{by_messages, load, load_structure, standing};
use domain_delivery::Delivery;
use sizes::DOMAIN_SIZE;
use source_target::{hart_of, number_of};
use words_masks::Members;

// Source `i`, which is pending and enabled, counts for hart `h`, whose structure is `x`.
#[tactic(auto, unfolding(crate::specs::Top::eligible))]
fn eligible(part: &[u32; DOMAIN_SIZE], h: usize, x: Delivery, i: usize) -> bool
    requires { (i < slot_count) × (x ≡ structure_at (domain_of part.now) h)
        × (standing (domain_of part.now) i ≡ true) }
    ensures { result ≡ eligible (domain_of part.now) h i }
{
    let s = load(part, i);
    hart_of(s.target) as usize == h && x.lets(number_of(s.target))
}

// Source `i` goes before `best`, where 0 is none.
#[tactic(auto, unfolding(crate::specs::Top::precedes))]
fn precedes(part: &[u32; DOMAIN_SIZE], i: usize, best: usize) -> bool
    requires { (i < slot_count) × (best < slot_count) }
    ensures { result ≡ precedes (domain_of part.now) i best }
{
    best == 0 || number_of(load(part, i).target) < number_of(load(part, best).target)
}

// The better of `best` and source `i`, which is pending and enabled.
fn better(part: &[u32; DOMAIN_SIZE], h: usize, x: Delivery, i: usize, best: usize) -> usize
    requires { (i < slot_count) × (best < slot_count) × (x ≡ structure_at (domain_of part.now) h)
        × (standing (domain_of part.now) i ≡ true) }
    ensures { result ≡ cond (eligible (domain_of part.now) h i
        && precedes (domain_of part.now) i best) i best }
{
    if eligible(part, h, x, i) && precedes(part, i, best) {
        i
    } else {
        best
    }
}

// From one pending and enabled source to the next. There is no source 0.
pub fn top_source(part: &[u32; DOMAIN_SIZE], h: usize) -> usize
    requires { h < hart_count }
    ensures { result ≡ top_source (domain_of part.now) h }
{
    let x = load_structure(part, h);
    let mut best: usize = 0;
    for i in Members::from(standing(part), 1) {
        best = better(part, h, x, i, best);
    }
    best
}

// A source and its priority as topi has them; 0 for no source.
pub fn topi_word(part: &[u32; DOMAIN_SIZE], i: usize) -> u32
    requires { i < slot_count }
    ensures { result ≡ cond (eqb i 0) 0
        (i * 65536 + number_of (source_at (domain_of part.now) i).target) }
{
    if i == 0 {
        0
    } else {
        (i as u32) * 65536 + number_of(load(part, i).target)
    }
}

#[tactic(auto, using(crate::proofs::TopLaws::top_below), unfolding(crate::specs::Top::topi_of))]
pub fn topi(part: &[u32; DOMAIN_SIZE], h: usize) -> u32
    requires { h < hart_count }
    ensures { result ≡ topi_of (domain_of part.now) h }
{
    if by_messages(part) {
        return 0;
    }
    topi_word(part, top_source(part, h))
}
