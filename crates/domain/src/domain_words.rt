// A domain's own words: domaincfg, genmsi, and the pending and enable words.
ghost use Rattle.std.specs.Prelude.{◌≡◌, ℕ, ◌<◌, get_or};
ghost use Rattle.sizes.specs.Sizes.{source_set_size, slot_count};
ghost use Rattle.words.specs.Bits.{has_bit};
ghost use Rattle.domain.specs.Domain.{domain_of, domaincfg_of, genmsi_of, is_enabled, by_messages};
ghost use Rattle.domain.specs.Domain.{with_domaincfg, with_genmsi};
ghost use Rattle.domain.specs.Slot.{standing};

use super::{DM_BIT, IE_BIT};
use sizes::{DOMAIN_SIZE, ENABLES_PLACE, PENDINGS_PLACE, TARGETS_PLACE};
use words::joined64;

#[tactic(auto, unfolding(crate::specs::Domain::domain_of, crate::specs::Domain::domaincfg_of))]
pub fn domaincfg(part: &[u32; DOMAIN_SIZE]) -> u32
    ensures { result ≡ domaincfg_of (domain_of part.now) }
{
    part[0]
}

// IE: the domain signals and sends.
#[tactic(auto, unfolding(crate::specs::Domain::is_enabled))]
pub fn enabled(part: &[u32; DOMAIN_SIZE]) -> bool
    ensures { result ≡ is_enabled (domain_of part.now) }
{
    words::has_bit(domaincfg(part), IE_BIT)
}

// DM: false is direct delivery, true by messages.
#[tactic(auto, unfolding(crate::specs::Domain::by_messages))]
pub fn by_messages(part: &[u32; DOMAIN_SIZE]) -> bool
    ensures { result ≡ by_messages (domain_of part.now) }
{
    words::has_bit(domaincfg(part), DM_BIT)
}

#[tactic(auto, unfolding(crate::specs::Domain::domain_of, crate::specs::Domain::genmsi_of))]
pub fn genmsi(part: &[u32; DOMAIN_SIZE]) -> u32
    ensures { result ≡ genmsi_of (domain_of part.now) }
{
    part[TARGETS_PLACE]
}

#[tactic(auto, unfolding(crate::specs::Domain::domain_of, crate::specs::Domain::with_domaincfg))]
pub fn put_domaincfg(part: &mut [u32; DOMAIN_SIZE], value: u32)
    ensures { domain_of part.new ≡ with_domaincfg (domain_of part.old) value }
{
    part[0] = value;
}

pub fn put_genmsi(part: &mut [u32; DOMAIN_SIZE], value: u32)
    ensures { domain_of part.new ≡ with_genmsi (domain_of part.old) value }
{
    part[TARGETS_PLACE] = value;
}

pub fn pending_word(part: &[u32; DOMAIN_SIZE], k: usize) -> u32
    requires { k < source_set_size }
    ensures { result ≡ get_or (domain_of part.now).pending k 0 }
{
    part[PENDINGS_PLACE + k]
}

pub fn enable_word(part: &[u32; DOMAIN_SIZE], k: usize) -> u32
    requires { k < source_set_size }
    ensures { result ≡ get_or (domain_of part.now).enable k 0 }
{
    part[ENABLES_PLACE + k]
}

// The sources that are pending and enabled, as bits. Usually there are none.
pub fn standing(part: &[u32; DOMAIN_SIZE]) -> u64
    ensures { (i : ℕ) → i < slot_count → has_bit result i ≡ standing (domain_of part.now) i }
{
    let pending = joined64(pending_word(part, 0), pending_word(part, 1));
    let enable = joined64(enable_word(part, 0), enable_word(part, 1));
    pending & enable
}
