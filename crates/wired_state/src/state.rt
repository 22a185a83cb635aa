// The controller's words: the wires, where a domain's words stand, and who has a source.
ghost use Rattle.std.specs.Prelude.{◌≡◌, ◌<◌};
ghost use Rattle.sizes.specs.Sizes.{slot_count};
ghost use Rattle.domain.specs.Domain.{domain_of};
ghost use Rattle.domain.specs.Slot.{with_source};
ghost use Rattle.wired_state.specs.Wires.{wired_of, domain_in, with_domain, is_delegated, place_of};

use sizes::{CHILD_PLACE, DOMAIN_SIZE, MACHINE_PLACE, SOURCE_SET_SIZE, WIRED_SIZE};
use source::Source;
use source_mode::DELEGATED_WORD;

pub fn wires(w: &[u32; WIRED_SIZE]) -> [u32; SOURCE_SET_SIZE]
    ensures { result ≡ (wired_of w.now).wires }
{
    [w[0], w[1]]
}

// Where a domain's words begin.
pub fn place_of(child: bool) -> usize
    ensures { result ≡ place_of child }
{
    if child { CHILD_PLACE } else { MACHINE_PLACE }
}

// The words of a domain.
pub fn domain_part(w: &[u32; WIRED_SIZE], child: bool) -> &[u32; DOMAIN_SIZE]
    ensures { domain_of result.now ≡ domain_in (wired_of w.now) child }
{
    let (_, words) = w.split_at(place_of(child));
    words.first_chunk().unwrap()
}

// A source of a domain.
pub fn store_source(w: &mut [u32; WIRED_SIZE], child: bool, i: usize, s: Source)
    requires { i < slot_count }
    ensures { wired_of w.new ≡ with_domain (wired_of w.old) child
        (with_source (domain_in (wired_of w.old) child) i s) }
{
    let (_, words) = w.split_at_mut(place_of(child));
    domain::store(words.first_chunk_mut().unwrap(), i, s);
}

// The source is the child's.
#[tactic(auto, unfolding(crate::specs::Wires::is_delegated, crate::specs::Wires::domain_in))]
pub fn delegated(w: &[u32; WIRED_SIZE], i: usize) -> bool
    requires { i < slot_count }
    ensures { result ≡ is_delegated (wired_of w.now) i }
{
    let s = domain::load(domain_part(w, false), i);
    DELEGATED_WORD <= s.mode
}
