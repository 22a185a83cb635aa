// The deliveries that a file may store.
ghost use Rattle.std.specs.Prelude.{◌≡◌};
ghost use Rattle.file_select.specs.Deliveries.{delivery_legal};

use super::FROM_WIRED;

const SIGNAL_OF_WIRED: u64 = FROM_WIRED as u64;

// A guest file never takes its signal from the wired controller.
#[tactic(auto, unfolding(crate::specs::Deliveries::delivery_legal))]
pub fn delivery_legal(guest: bool, value: u64) -> bool
    ensures { result ≡ delivery_legal guest value }
{
    match value {
        0 | 1 => true,
        SIGNAL_OF_WIRED => !guest,
        _ => false,
    }
}
