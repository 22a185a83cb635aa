// What a write to domaincfg does to its domain, before anything is sent.
#![tactic(auto)]

ghost use Rattle.std.specs.Prelude.{◌≡◌, ◌-◌, ◌<◌};
ghost use Rattle.sizes.specs.Sizes.{source_count, slot_count};
ghost use Rattle.domain.specs.Domain.{domain_of, by_messages};
ghost use Rattle.domain_domaincfg.specs.Domaincfg.{kept_domaincfg, redelivered_at, redelivered_from};
ghost use Rattle.domain_domaincfg.specs.Domaincfg.{domaincfg_written};

use domain::{DM_BIT, IE_BIT};
use sizes::{DOMAIN_SIZE, SLOT_COUNT, SOURCE_SET_SIZE};
use source_mode::{active, level};
use source_target::start_target;
use source_wire::wire_at;

// What of a written domaincfg is stored.
#[tactic(auto, unfolding(crate::specs::Domaincfg::kept_domaincfg))]
pub fn kept_domaincfg(value: u32) -> u32
    ensures { result ≡ kept_domaincfg value }
{
    let ie = words::field32(value, IE_BIT, 1);
    let dm = words::field32(value, DM_BIT, 1);
    words::packed32(ie, IE_BIT, words::packed32(dm, DM_BIT, 0))
}

// An inactive source stays; of an active one the target is stored, and of a level source the pending bit.
fn redeliver_source(
    part: &mut [u32; DOMAIN_SIZE],
    wires: [u32; SOURCE_SET_SIZE],
    messages: bool,
    i: usize,
)
    requires { (i < slot_count) × (messages ≡ by_messages (domain_of part.old)) }
    ensures { domain_of part.new ≡ redelivered_at (domain_of part.old) wires i }
{
    let s = domain::load(part, i);
    if !active(s.mode) {
        return;
    }
    if level(s.mode) {
        let t = s.redelivered(messages, wire_at(wires, i));
        domain::put_target(part, i, t.target);
        domain::put_pending(part, i, t.pending);
        return;
    }
    domain::put_target(part, i, start_target(messages));
}

fn redeliver(part: &mut [u32; DOMAIN_SIZE], wires: [u32; SOURCE_SET_SIZE])
    ensures { domain_of part.new
        ≡ redelivered_from (domain_of part.old) wires 1 source_count }
{
    let messages = domain::by_messages(part);
    for i in 1..SLOT_COUNT {
        redeliver_source(part, wires, messages, i);
    }
}

#[tactic(auto, unfolding(crate::specs::Domaincfg::domaincfg_written, crate::specs::Domaincfg::mode_settled))]
pub fn write_domaincfg(part: &mut [u32; DOMAIN_SIZE], wires: [u32; SOURCE_SET_SIZE], value: u32)
    ensures { domain_of part.new
        ≡ domaincfg_written (domain_of part.old) wires value }
{
    let before = domain::by_messages(part);
    domain::put_domaincfg(part, kept_domaincfg(value));
    if domain::by_messages(part) != before {
        domain::put_genmsi(part, 0);
        redeliver(part, wires);
    }
}
