// A wire that is set: both domains see the change.
ghost use Rattle.std.specs.Prelude.{◌≡◌, ◌≤◌, ◌<◌};
ghost use Rattle.sizes.specs.Sizes.{slot_count};
ghost use Rattle.words.specs.Sets.{put};
ghost use Rattle.wired_state.specs.Wires.{wired_of, domain_in, with_domain, with_wires, source_wired};
ghost use Rattle.wired_state.specs.Wires.{wire_set};

use super::state::{domain_part, store_source, wires};
use sizes::WIRED_SIZE;

#[tactic(auto, unfolding(crate::specs::Wires::source_wired))]
fn wire_source(w: &mut [u32; WIRED_SIZE], child: bool, i: usize, was: bool, is: bool)
    requires { i < slot_count }
    ensures { wired_of w.new ≡ with_domain (wired_of w.old) child
        (source_wired (domain_in (wired_of w.old) child) i was is) }
{
    let part = domain_part(w, child);
    let s = domain::load(part, i).wire_changed(domain::by_messages(part), was, is);
    store_source(w, child, i, s);
}

fn put_wire(w: &mut [u32; WIRED_SIZE], i: usize, level: bool)
    requires { i < slot_count }
    ensures { wired_of w.new
        ≡ with_wires (wired_of w.old) (put (wired_of w.old).wires i level) }
{
    w[i / 32] = words::put_bit(w[i / 32], (i % 32) as u32, level);
}

pub fn set_wire(w: &mut [u32; WIRED_SIZE], i: usize, level: bool)
    requires { (1 ≤ i) × (i < slot_count) }
    ensures { wired_of w.new ≡ wire_set (wired_of w.old) i level }
{
    let was = source_wire::wire_at(wires(w), i);
    put_wire(w, i, level);
    wire_source(w, false, i, was, level);
    wire_source(w, true, i, was, level);
}
