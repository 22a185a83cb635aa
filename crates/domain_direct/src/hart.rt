// What a claim answers and does, and the signal to a hart.
ghost use Rattle.std.specs.Prelude.{◌≡◌, ◌<◌};
ghost use Rattle.sizes.specs.Sizes.{hart_count, slot_count};
ghost use Rattle.domain.specs.Domain.{domain_of};
ghost use Rattle.domain_direct.specs.Direct.{topi_of, unforced, released, hart_claimed, signal_of};

use domain::{by_messages, enabled, load, load_structure, store, store_structure};
use domain_topi::{top_source, topi, topi_word};
use sizes::DOMAIN_SIZE;

// A claim with no top clears iforce.
#[tactic(auto, unfolding(crate::specs::Direct::unforced))]
fn unforce(part: &mut [u32; DOMAIN_SIZE], h: usize)
    requires { h < hart_count }
    ensures { domain_of part.new ≡ unforced (domain_of part.old) h }
{
    store_structure(part, h, load_structure(part, h).without_force());
}

// A claim of source `i` clears its pending bit, unless a level source keeps it.
#[tactic(auto, unfolding(crate::specs::Direct::released))]
fn release(part: &mut [u32; DOMAIN_SIZE], i: usize)
    requires { i < slot_count }
    ensures { domain_of part.new ≡ released (domain_of part.old) i }
{
    store(part, i, load(part, i).cleared(false));
}

#[tactic(auto, using(crate::proofs::DirectLaws::claims), unfolding(crate::specs::Direct::hart_claimed))]
pub fn claim(part: &mut [u32; DOMAIN_SIZE], h: usize) -> u32
    requires { h < hart_count }
    ensures { (result ≡ topi_of (domain_of part.old) h)
        × (domain_of part.new ≡ hart_claimed (domain_of part.old) h) }
{
    if by_messages(part) {
        return 0;
    }
    let i = top_source(part, h);
    let top = topi_word(part, i);
    if i == 0 {
        unforce(part, h);
    } else {
        release(part, i);
    }
    top
}

// The search for the top is made only where a top would raise the signal.
#[tactic(auto, using(crate::proofs::DirectLaws::silent), unfolding(crate::specs::Direct::signal_of))]
pub fn signal(part: &[u32; DOMAIN_SIZE], h: usize) -> bool
    requires { h < hart_count }
    ensures { result ≡ signal_of (domain_of part.now) h }
{
    if by_messages(part) {
        return false;
    }
    let x = load_structure(part, h);
    let on = enabled(part);
    if !x.signals(on, 1) {
        return false;
    }
    x.signals(on, topi(part, h))
}
