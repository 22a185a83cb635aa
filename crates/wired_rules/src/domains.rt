// The rules of a domain, those that concern both, and all of them.
ghost use Rattle.std.specs.Prelude.{◌≡◌, ◌&&◌};
ghost use Rattle.sizes.specs.Sizes.{source_count, slot_count};
ghost use Rattle.domain.specs.Domain.{domain_of};
ghost use Rattle.wired_state.specs.Wires.{wired_of};
ghost use Rattle.words.specs.Every.{every};
ghost use Rattle.wired_rules.specs.Rules.{domaincfg_range, genmsi_range, genmsi_rule, source_zero_rule};
ghost use Rattle.wired_rules.specs.Rules.{domain_sound, wired_sound};
ghost use Rattle.domain_slots.specs.Slots.{SoFar};
ghost use Rattle.wired_rules.specs.Bits.{bits_at};

use super::structures::structure_pass;
use domain_slots::{Gathered, gather};
use sizes::{DOMAIN_SIZE, SOURCE_SET_SIZE, WIRED_SIZE};
use source_bits::{none_low, none_missing, none_unsent, none_unused, one_word};
use wired_state::domain_part;

#[tactic(auto, unfolding(crate::specs::Rules::domaincfg_range))]
fn domaincfg_rule(part: &[u32; DOMAIN_SIZE]) -> bool
    ensures { result ≡ domaincfg_range (domain_of part.now) }
{
    let word = domain::domaincfg(part);
    word == domain_domaincfg::kept_domaincfg(word)
}

#[tactic(auto, unfolding(crate::specs::Rules::genmsi_range, crate::specs::Rules::genmsi_rule))]
fn genmsi_rules(part: &[u32; DOMAIN_SIZE]) -> bool
    ensures { result ≡ (genmsi_range (domain_of part.now)
        && genmsi_rule (domain_of part.now)) }
{
    let word = domain::genmsi(part);
    (word == domain_genmsi::kept_genmsi(word)) & (domain::by_messages(part) | (word == 0))
}

// The bits of all sources; source 0, which is none, has no bits.
fn bits_rules(
    part: &[u32; DOMAIN_SIZE],
    child: bool,
    wires: [u32; SOURCE_SET_SIZE],
    g: Gathered,
) -> bool
    requires { SoFar child (domain_of part.now) slot_count g }
    ensures { result ≡ (source_zero_rule (domain_of part.now).pending
        && source_zero_rule (domain_of part.now).enable
        && every (bits_at child wires (domain_of part.now)) 1 source_count) }
{
    let messages = domain::by_messages(part);
    let sends = domain::enabled(part) & messages;
    let pending = one_word(domain::pending_word(part, 0), domain::pending_word(part, 1));
    let enable = one_word(domain::enable_word(part, 0), domain::enable_word(part, 1));
    let levels = one_word(wires[0], wires[1]);
    none_unused(g.active, pending, enable)
        & none_unsent(sends, pending, enable)
        & none_low(g.straight, g.inverted, levels, pending)
        & none_missing(messages, g.straight, g.inverted, levels, pending)
}

#[tactic(auto, using(crate::proofs::RulesLaws::read))]
fn domain_rules(
    part: &[u32; DOMAIN_SIZE],
    child: bool,
    wires: [u32; SOURCE_SET_SIZE],
    g: Gathered,
) -> bool
    requires { SoFar child (domain_of part.now) slot_count g }
    ensures { result ≡ domain_sound child wires (domain_of part.now) }
{
    domaincfg_rule(part)
        & genmsi_rules(part)
        & structure_pass(part)
        & (g.faults == 0)
        & bits_rules(part, child, wires, g)
}

// Whether the 290 words of the wired controller keep every rule. The child has a source only where it is
// delegated.
pub fn sound(w: &[u32; WIRED_SIZE]) -> bool
    ensures { result ≡ wired_sound (wired_of w.now) }
{
    let wires = wired_state::wires(w);
    let (machine, child) = (domain_part(w, false), domain_part(w, true));
    let (given, taken) = (gather(machine, false), gather(child, true));
    !words::has_bit(wires[0], 0)
        & domain_rules(machine, false, wires, given)
        & domain_rules(child, true, wires, taken)
        & (words::without64(taken.active, given.delegated) == 0)
}
