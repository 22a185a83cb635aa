// A write to any register: a sourcecfg concerns both domains, every other register the domain written.
ghost use Rattle.std.specs.Prelude.{◌≡◌};
ghost use Rattle.domain_region.specs.Region.{Within};
ghost use Rattle.wired_state.specs.Wires.{wired_of};
ghost use Rattle.wired_registers.specs.Wired.{part_written, written_in};

use domain_region::{Role, Word, role_of};
use sizes::WIRED_SIZE;
use wired_sourcecfg::write_source;
use wired_state::{place_of, wires};

// A write that concerns the domain written alone.
fn write_part(w: &mut [u32; WIRED_SIZE], child: bool, word: Word, value: u32)
    requires { Within word }
    ensures { wired_of w.new ≡ part_written (wired_of w.old) child word value }
{
    let levels = wires(w);
    let (_, words) = w.split_at_mut(place_of(child));
    domain_registers::write(words.first_chunk_mut().unwrap(), child, levels, word, value);
}

#[tactic(auto, using(crate::proofs::WiredLaws::written))]
pub fn write(w: &mut [u32; WIRED_SIZE], child: bool, word: Word, value: u32)
    requires { Within word }
    ensures { wired_of w.new ≡ written_in (wired_of w.old) child word value }
{
    match role_of(word) {
        Role::Configures(i) => write_source(w, child, i as usize, value),
        _ => write_part(w, child, word, value),
    }
}
