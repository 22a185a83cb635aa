// The words of an active source against their ranges. What a test gives is 0 exactly if the word is in range,
// so that a pass over the sources gathers all of them in one word.
#![tactic(auto)]

ghost use Rattle.std.specs.Prelude.{◌≡◌, cond, not, ◌&&◌, ◌||◌, eqb};
ghost use Rattle.source_mode.specs.Mode.{kept_mode};
ghost use Rattle.source_target.specs.Target.{number_of, kept_target};

use source_mode::LEVEL0;

// The bits of a target that no domain keeps: above the hart, between it and the guest index, and below that.
const ABOVE_HART: u32 = 0xFFF00000;

const BELOW_HART: u32 = 0x3C000;

const BELOW_GUEST: u32 = 0xF00;

const GUEST: u32 = 0x3000;

// Legal modes are 0, 1 and 4 to 7.
pub fn mode_fault(mode: u32) -> u32
    ensures { eqb result 0 ≡ eqb mode (kept_mode mode) }
{
    match mode {
        0 | 1 | 4..=LEVEL0 => 0,
        _ => 1,
    }
}

fn priority_fault(messages: bool, target: u32) -> u32
    ensures { eqb result 0 ≡ (messages || not (eqb (number_of target) 0)) }
{
    u32::from(!messages && source_target::number_of(target) == 0)
}

// Only the child's messages have a guest index.
fn barred_guest(child: bool, messages: bool) -> u32
    ensures { result ≡ cond (child && messages) 0 12288 }
{
    if child & messages { 0 } else { GUEST }
}

pub fn target_fault(child: bool, messages: bool, target: u32) -> u32
    ensures { eqb result 0 ≡ eqb target (kept_target child messages target) }
{
    let barred = barred_guest(child, messages);
    let low = (target & BELOW_GUEST) | (target & barred);
    let high = (target & ABOVE_HART) | (target & BELOW_HART);
    high | low | priority_fault(messages, target)
}
