// A sourcecfg that is written, with delegation and taking back. Nothing is sent here. The machine domain's
// word says who has the source.
#![tactic(auto)]

ghost use Rattle.std.specs.Prelude.{◌≡◌, ◌≤◌, ◌<◌};
ghost use Rattle.sizes.specs.Sizes.{slot_count};
ghost use Rattle.wired_state.specs.Wires.{wired_of, domain_in, with_domain};
ghost use Rattle.wired_sourcecfg.specs.Delegation.{source_moded, child_written, machine_written};
ghost use Rattle.wired_sourcecfg.specs.Delegation.{source_written};

use sizes::WIRED_SIZE;
use source::Source;
use source_mode::{DELEGATED_WORD, source_word};
use source_wire::wire_at;
use wired_state::{delegated, domain_part, store_source, wires};

#[tactic(auto, unfolding(crate::specs::Delegation::source_moded))]
fn mode_source(w: &mut [u32; WIRED_SIZE], child: bool, i: usize, mode: u32, wire: bool)
    requires { i < slot_count }
    ensures { wired_of w.new ≡ with_domain (wired_of w.old) child
        (source_moded (domain_in (wired_of w.old) child) i mode wire) }
{
    let part = domain_part(w, child);
    let s = domain::load(part, i).moded(domain::by_messages(part), mode, wire);
    store_source(w, child, i, s);
}

fn write_child(w: &mut [u32; WIRED_SIZE], i: usize, value: u32)
    requires { i < slot_count }
    ensures { wired_of w.new ≡ child_written (wired_of w.old) i value }
{
    let wire = wire_at(wires(w), i);
    let mode = source_word(true, delegated(w, i), value);
    mode_source(w, true, i, mode, wire);
}

fn write_machine(w: &mut [u32; WIRED_SIZE], i: usize, value: u32)
    requires { i < slot_count }
    ensures { wired_of w.new ≡ machine_written (wired_of w.old) i value }
{
    let wire = wire_at(wires(w), i);
    let had = delegated(w, i);
    let mode = source_word(false, false, value);
    mode_source(w, false, i, mode, wire);
    let has = DELEGATED_WORD <= mode;
    if had != has {
        store_source(w, true, i, Source::inactive(0));
    }
}

#[tactic(auto, unfolding(crate::specs::Delegation::source_written))]
pub fn write_source(w: &mut [u32; WIRED_SIZE], child: bool, i: usize, value: u32)
    requires { (1 ≤ i) × (i < slot_count) }
    ensures { wired_of w.new ≡ source_written (wired_of w.old) child i value }
{
    if child {
        write_child(w, i, value);
    } else {
        write_machine(w, i, value);
    }
}
