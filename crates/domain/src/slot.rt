// A source's slot: its mode and target words, its pending and enable bits.
ghost use Rattle.std.specs.Prelude.{◌≡◌, ◌+◌, ◌/◌, ◌%◌, ◌≤◌, ◌<◌, set, get_or};
ghost use Rattle.sizes.specs.Sizes.{slot_count, source_set_size, domain_size};
ghost use Rattle.words.specs.Bits.{put_bit};
ghost use Rattle.words.specs.Sets.{put};
ghost use Rattle.domain.specs.Domain.{domain_of, with_targets, with_pendings, with_enables};
ghost use Rattle.domain.specs.Slot.{source_at, with_source};

use sizes::{DOMAIN_SIZE, ENABLES_PLACE, PENDINGS_PLACE, TARGETS_PLACE};
use source::Source;

pub fn load(part: &[u32; DOMAIN_SIZE], i: usize) -> Source
    requires { i < slot_count }
    ensures { result ≡ source_at (domain_of part.now) i }
{
    let k = (i % 32) as u32;
    let pending = words::has_bit(part[PENDINGS_PLACE + i / 32], k);
    let enabled = words::has_bit(part[ENABLES_PLACE + i / 32], k);
    Source {
        mode: part[i],
        target: part[TARGETS_PLACE + i],
        pending,
        enabled,
    }
}

// The target of source `i` alone.
pub fn put_target(part: &mut [u32; DOMAIN_SIZE], i: usize, target: u32)
    requires { i < slot_count }
    ensures { domain_of part.new ≡ with_targets (domain_of part.old)
        (set (domain_of part.old).target i target) }
{
    part[TARGETS_PLACE + i] = target;
}

// Number `i` in the set whose words begin at `place`.
fn put_member(part: &mut [u32; DOMAIN_SIZE], place: usize, i: usize, on: bool)
    requires { (place + source_set_size ≤ domain_size) × (i < slot_count) }
    ensures { part.new ≡ set part.old (place + i / 32)
        (put_bit (get_or part.old (place + i / 32) 0) (i % 32) on) }
{
    let word = &mut part[place + i / 32];
    *word = words::put_bit(*word, (i % 32) as u32, on);
}

// Its pending bit alone.
pub fn put_pending(part: &mut [u32; DOMAIN_SIZE], i: usize, pending: bool)
    requires { i < slot_count }
    ensures { domain_of part.new ≡ with_pendings (domain_of part.old)
        (put (domain_of part.old).pending i pending) }
{
    put_member(part, PENDINGS_PLACE, i, pending);
}

// Its enable bit alone.
pub fn put_enabled(part: &mut [u32; DOMAIN_SIZE], i: usize, enabled: bool)
    requires { i < slot_count }
    ensures { domain_of part.new ≡ with_enables (domain_of part.old)
        (put (domain_of part.old).enable i enabled) }
{
    put_member(part, ENABLES_PLACE, i, enabled);
}

// Both words are read before the first is stored: part by part is seven instructions dearer.
pub fn store(part: &mut [u32; DOMAIN_SIZE], i: usize, s: Source)
    requires { i < slot_count }
    ensures { domain_of part.new ≡ with_source (domain_of part.old) i s }
{
    let k = (i % 32) as u32;
    let pending = words::put_bit(part[PENDINGS_PLACE + i / 32], k, s.pending);
    let enabled = words::put_bit(part[ENABLES_PLACE + i / 32], k, s.enabled);
    part[i] = s.mode;
    part[TARGETS_PLACE + i] = s.target;
    part[PENDINGS_PLACE + i / 32] = pending;
    part[ENABLES_PLACE + i / 32] = enabled;
}
