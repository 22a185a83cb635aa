// The three settable numbers of a hart's delivery structure, read and written.
ghost use Rattle.std.specs.Prelude.{◌≡◌, ◌<◌};
ghost use Rattle.sizes.specs.Sizes.{hart_count};
ghost use Rattle.domain.specs.Domain.{domain_of};
ghost use Rattle.domain_direct.specs.Direct.{number_at, written_at, setting_of, setting_written};

use super::Setting;
use domain::{by_messages, load_structure, store_structure};
use domain_delivery::Delivery;
use sizes::DOMAIN_SIZE;

#[tactic(auto, unfolding(crate::specs::Direct::number_at))]
fn number_at(x: Delivery, which: Setting) -> u32
    ensures { result ≡ number_at x which }
{
    match which {
        Setting::Idelivery => x.idelivery,
        Setting::Iforce => x.iforce,
        Setting::Ithreshold => x.ithreshold,
    }
}

#[tactic(auto, unfolding(crate::specs::Direct::written_at))]
fn written_at(x: Delivery, which: Setting, value: u32) -> Delivery
    ensures { result ≡ written_at x which value }
{
    match which {
        Setting::Idelivery => x.with_idelivery(value),
        Setting::Iforce => x.with_iforce(value),
        Setting::Ithreshold => x.with_ithreshold(value),
    }
}

#[tactic(auto, unfolding(crate::specs::Direct::setting_of))]
pub fn setting_of(part: &[u32; DOMAIN_SIZE], h: usize, which: Setting) -> u32
    requires { h < hart_count }
    ensures { result ≡ setting_of (domain_of part.now) h which }
{
    if by_messages(part) {
        return 0;
    }
    number_at(load_structure(part, h), which)
}

#[tactic(auto, unfolding(crate::specs::Direct::setting_written))]
pub fn put_setting(part: &mut [u32; DOMAIN_SIZE], h: usize, which: Setting, value: u32)
    requires { h < hart_count }
    ensures { domain_of part.new
        ≡ setting_written (domain_of part.old) h which value }
{
    if by_messages(part) {
        return;
    }
    store_structure(part, h, written_at(load_structure(part, h), which, value));
}
