// A hart's delivery structure: three words.
ghost use Rattle.std.specs.Prelude.{◌≡◌, ◌<◌};
ghost use Rattle.sizes.specs.Sizes.{hart_count};
ghost use Rattle.domain.specs.Domain.{domain_of};
ghost use Rattle.domain.specs.Structure.{structure_at, with_structure};

use domain_delivery::Delivery;
use sizes::{DOMAIN_SIZE, STRUCTURE_SIZE, STRUCTURES_PLACE};

pub fn load_structure(part: &[u32; DOMAIN_SIZE], h: usize) -> Delivery
    requires { h < hart_count }
    ensures { result ≡ structure_at (domain_of part.now) h }
{
    let at = STRUCTURE_SIZE * h;
    Delivery {
        idelivery: part[STRUCTURES_PLACE + at],
        iforce: part[STRUCTURES_PLACE + (at + 1)],
        ithreshold: part[STRUCTURES_PLACE + (at + 2)],
    }
}

pub fn store_structure(part: &mut [u32; DOMAIN_SIZE], h: usize, x: Delivery)
    requires { h < hart_count }
    ensures { domain_of part.new ≡ with_structure (domain_of part.old) h x }
{
    let at = STRUCTURE_SIZE * h;
    part[STRUCTURES_PLACE + at] = x.idelivery;
    part[STRUCTURES_PLACE + (at + 1)] = x.iforce;
    part[STRUCTURES_PLACE + (at + 2)] = x.ithreshold;
}
