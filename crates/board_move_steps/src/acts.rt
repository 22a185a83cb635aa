// Which access is which.
ghost use Rattle.std.specs.Prelude.{◌≡◌, ◌≤◌};
ghost use Rattle.board_move_steps.specs.Steps.{act_of};

use super::Act;
use file::Access;
use file_select::{EIDELIVERY, EIE0, EIP0, EITHRESHOLD};

// Where the saved numbers have the delivery, the threshold, the words of pending and those of enable bits.
const DELIVERY_AT: usize = 0;

const THRESHOLD_AT: usize = 1;

const PENDING_AT: usize = 2;

const ENABLE_AT: usize = 6;

// Accesses 1 to 89, of the six steps: 3, 5, 63, 8, 8 and 2.
#[tactic(auto, unfolding(crate::specs::Steps::act_of))]
pub fn act_of(access: u64) -> Act
    requires { 1 ≤ access }
    ensures { result ≡ act_of access }
{
    match access {
        1 => Act::Save(EIDELIVERY, DELIVERY_AT),
        2 => Act::Save(EITHRESHOLD, THRESHOLD_AT),
        3 => Act::Zero(false, EIDELIVERY),
        4 => Act::Zero(true, EIDELIVERY),
        5..=8 => Act::Zero(true, EIP0 + 2 * (access - 5)),
        9..=71 => Act::Target(access - 8),
        72..=75 => Act::Save(
            EIP0 + 2 * (access - 72),
            PENDING_AT + (access - 72) as usize,
        ),
        76..=79 => Act::Save(EIE0 + 2 * (access - 76), ENABLE_AT + (access - 76) as usize),
        80..=83 => {
            let place = PENDING_AT + (access - 80) as usize;
            Act::Put(Access::Set, EIP0 + 2 * (access - 80), place)
        }
        84..=87 => {
            let place = ENABLE_AT + (access - 84) as usize;
            Act::Put(Access::Write, EIE0 + 2 * (access - 84), place)
        }
        88 => Act::Put(Access::Write, EITHRESHOLD, THRESHOLD_AT),
        _ => Act::Put(Access::Write, EIDELIVERY, DELIVERY_AT),
    }
}
