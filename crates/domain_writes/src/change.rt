// Writes to sources: to those whose bits are set in a word, to one by its number, and to one target.
ghost use Rattle.std.specs.Prelude.{◌≡◌, ◌<◌, cond, eqb};
ghost use Rattle.sizes.specs.Sizes.{slot_count};
ghost use Rattle.words.specs.Parts.{joined};
ghost use Rattle.source.specs.Pending.{switched};
ghost use Rattle.domain.specs.Domain.{domain_of};
ghost use Rattle.domain.specs.Slot.{source_at, with_source};
ghost use Rattle.domain_writes.specs.Writes.{changed_at, word_changed, number_changed, target_written};

use sizes::{DOMAIN_SIZE, SOURCE_COUNT, SOURCE_SET_SIZE};
use source::Change;
use source_mode::active;
use source_wire::wire_at;
use words::joined64;
use words_masks::Members;

// The enable bit of source `i`, if the source is active.
fn switch_source(part: &mut [u32; DOMAIN_SIZE], i: usize, on: bool)
    requires { i < slot_count }
    ensures { domain_of part.new ≡ with_source (domain_of part.old) i
        (switched (source_at (domain_of part.old) i) on) }
{
    let s = domain::load(part, i);
    if active(s.mode) {
        domain::put_enabled(part, i, on);
    }
}

// Source `i` after one change. Only the word with the bit that the change can touch is stored.
#[tactic(auto, unfolding(crate::specs::Writes::changed_at))]
fn change_source(
    part: &mut [u32; DOMAIN_SIZE],
    wires: [u32; SOURCE_SET_SIZE],
    change: Change,
    i: usize,
)
    requires { i < slot_count }
    ensures { domain_of part.new ≡ changed_at (domain_of part.old) wires change i }
{
    let messages = domain::by_messages(part);
    let s = domain::load(part, i);
    match change {
        Change::Pend => {
            let t = s.pended(messages, wire_at(wires, i));
            domain::put_pending(part, i, t.pending);
        }
        Change::Clear => {
            let t = s.cleared(messages);
            domain::put_pending(part, i, t.pending);
        }
        Change::Enable => switch_source(part, i, true),
        Change::Disable => switch_source(part, i, false),
    }
}

// The word `value` as a set of sources: word 0 has 0 to 31, word 1 has 32 to 63.
fn named(k: usize, value: u32) -> u64
    ensures { result ≡ cond (eqb k 0) (joined value 0) (joined 0 value) }
{
    if k == 0 {
        return joined64(value, 0);
    }
    joined64(0, value)
}

// The sources whose bits are set in `value`, which is written to word `k` of a family. There is no source 0.
pub fn change_word(
    part: &mut [u32; DOMAIN_SIZE],
    wires: [u32; SOURCE_SET_SIZE],
    change: Change,
    k: usize,
    value: u32,
)
    ensures { domain_of part.new
        ≡ word_changed (domain_of part.old) wires change k value }
{
    for i in Members::from(named(k, value), 1) {
        change_source(part, wires, change, i);
    }
}

const LAST: u32 = SOURCE_COUNT as u32;

#[tactic(auto, unfolding(crate::specs::Writes::number_changed))]
pub fn change_number(
    part: &mut [u32; DOMAIN_SIZE],
    wires: [u32; SOURCE_SET_SIZE],
    change: Change,
    value: u32,
)
    ensures { domain_of part.new
        ≡ number_changed (domain_of part.old) wires change value }
{
    if 1 <= value && value <= LAST {
        change_source(part, wires, change, value as usize);
    }
}

#[tactic(auto, unfolding(crate::specs::Writes::target_written))]
pub fn write_target(part: &mut [u32; DOMAIN_SIZE], child: bool, i: usize, value: u32)
    requires { i < slot_count }
    ensures { domain_of part.new
        ≡ target_written child (domain_of part.old) i value }
{
    let messages = domain::by_messages(part);
    let s = domain::load(part, i);
    domain::store(part, i, s.retargeted(child, messages, value));
}
