// Targets and messages: fields by shifts and masks.
#![tactic(auto)]

ghost use Rattle.std.specs.Prelude.{◌≡◌, ◌<◌, ◌^◌, cond};
ghost use Rattle.sizes.specs.Sizes.{hart_count};
ghost use Rattle.words.specs.Parts.{packed};
ghost use Rattle.source_target.specs.Target.{hart_of, guest_of, number_of, start_target, kept_target};
ghost use Rattle.source_target.specs.Target.{message_of, receiver_of, priority_of, hart_at};

use file_message::log_word;

// Where a target has its hart, and in the child its guest index.
pub const HART_AT: u32 = 18;

pub const GUEST_AT: u32 = 12;

pub fn hart_of(target: u32) -> u32
    ensures { (result ≡ hart_of target) × (result < 4) }
{
    words::field32(target, HART_AT, 2)
}

pub fn guest_of(target: u32) -> u32
    ensures { (result ≡ guest_of target) × (result < 4) }
{
    words::field32(target, GUEST_AT, 2)
}

// A priority or an identity.
pub fn number_of(target: u32) -> u32
    ensures { (result ≡ number_of target) × (result < 256) }
{
    words::field32(target, 0, 8)
}

pub fn under_hart(hart: u32, below: u32) -> u32
    requires { (hart < hart_count) × (below < 2 ^ hart_at) }
    ensures { result ≡ packed hart hart_at below }
{
    words::packed32(hart, HART_AT, below)
}

#[tactic(auto, unfolding(crate::specs::Target::start_target))]
pub fn start_target(messages: bool) -> u32
    ensures { result ≡ start_target messages }
{
    if messages { 0 } else { 1 }
}

// What a target has below its hart. A written priority of 0 becomes 1.
#[tactic(auto, unfolding(crate::specs::Target::receiver_of, crate::specs::Target::priority_of))]
fn below_hart(child: bool, messages: bool, value: u32) -> u32
    ensures kept { result ≡ cond messages (receiver_of child value) (priority_of value) }
    ensures below { result < 2 ^ hart_at }
{
    let number = number_of(value);
    if !messages {
        return number.max(1);
    }
    if child {
        words::packed32(guest_of(value), GUEST_AT, number)
    } else {
        number
    }
}

#[tactic(auto, unfolding(crate::specs::Target::kept_target))]
pub fn kept_target(child: bool, messages: bool, value: u32) -> u32
    ensures { result ≡ kept_target child messages value }
{
    under_hart(hart_of(value), below_hart(child, messages, value))
}

// The log word of the message that a source with this target sends.
#[tactic(auto, unfolding(crate::specs::Target::message_of))]
pub fn message(child: bool, target: u32) -> u32
    ensures { result ≡ message_of child target }
{
    let file = if child { guest_of(target) + 1 } else { 0 };
    log_word(hart_of(target), file, number_of(target))
}
