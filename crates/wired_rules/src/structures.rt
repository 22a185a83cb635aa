// The rules of the delivery structures of one domain.
ghost use Rattle.std.specs.Prelude.{◌≡◌};
ghost use Rattle.sizes.specs.Sizes.{hart_count};
ghost use Rattle.domain.specs.Domain.{domain_of};
ghost use Rattle.words.specs.Every.{every};
ghost use Rattle.wired_rules.specs.Rules.{structure_range};

use domain::load_structure;
use sizes::{DOMAIN_SIZE, HART_COUNT};

pub fn structure_pass(part: &[u32; DOMAIN_SIZE]) -> bool
    ensures { result ≡ every (structure_range (domain_of part.now)) 0 hart_count }
{
    let mut sound = true;
    for h in 0..HART_COUNT {
        sound &= load_structure(part, h).sound();
    }
    sound
}
