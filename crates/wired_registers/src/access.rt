// Reads and signals of one of the two domains.
ghost use Rattle.std.specs.Prelude.{◌≡◌, ◌<◌};
ghost use Rattle.sizes.specs.Sizes.{hart_count};
ghost use Rattle.domain_values.specs.Values.{domaincfg_mark};
ghost use Rattle.domain_region.specs.Region.{Within};
ghost use Rattle.domain.specs.Domain.{domaincfg_of};
ghost use Rattle.domain_direct.specs.Direct.{signal_of};
ghost use Rattle.wired_state.specs.Wires.{wired_of, domain_in};
ghost use Rattle.wired_registers.specs.Wired.{read_in, claimed_in};

use domain_region::Word;
use sizes::WIRED_SIZE;
use wired_state::{domain_part, place_of, wires};

pub fn read(w: &mut [u32; WIRED_SIZE], child: bool, word: Word) -> u32
    requires { (domaincfg_of (domain_in (wired_of w.old) child) < domaincfg_mark) × Within word }
    ensures { (result ≡ read_in (wired_of w.old) child word)
        × (wired_of w.new ≡ claimed_in (wired_of w.old) child word) }
{
    let levels = wires(w);
    let (_, words) = w.split_at_mut(place_of(child));
    domain_registers::read(words.first_chunk_mut().unwrap(), levels, word)
}

pub fn signal(w: &[u32; WIRED_SIZE], child: bool, h: usize) -> bool
    requires { h < hart_count }
    ensures { result ≡ signal_of (domain_in (wired_of w.now) child) h }
{
    domain_direct::signal(domain_part(w, child), h)
}
