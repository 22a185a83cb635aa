// genmsi: what a write stores, what a read gives, and the message that a write sends at once.
#![tactic(auto)]

ghost use Rattle.std.specs.Prelude.{◌≡◌, length};
ghost use Rattle.domain.specs.Domain.{domain_of};
ghost use Rattle.domain_sending.specs.Sending.{logged};
ghost use Rattle.domain_genmsi.specs.Genmsi.{kept_genmsi, genmsi_message, genmsi_written};
ghost use Rattle.domain_genmsi.specs.Genmsi.{genmsi_read, genmsi_sent};

use file_message::log_word;
use sizes::{DOMAIN_SIZE, LOG_SIZE};
use source_target::{hart_of, number_of, under_hart};

// What a write keeps, and the log word of the message that it sends at once.
#[tactic(auto, unfolding(crate::specs::Genmsi::kept_genmsi))]
pub fn kept_genmsi(value: u32) -> u32
    ensures { result ≡ kept_genmsi value }
{
    under_hart(hart_of(value), number_of(value))
}

pub fn genmsi_message(child: bool, value: u32) -> u32
    ensures { result ≡ genmsi_message child value }
{
    if child {
        return log_word(hart_of(value), 1, number_of(value));
    }
    log_word(hart_of(value), 0, number_of(value))
}

// Ignored in direct mode. What it sends is not sent here.
#[tactic(auto, unfolding(crate::specs::Genmsi::genmsi_written))]
pub fn write_genmsi(part: &mut [u32; DOMAIN_SIZE], value: u32)
    ensures { domain_of part.new ≡ genmsi_written (domain_of part.old) value }
{
    if domain::by_messages(part) {
        domain::put_genmsi(part, kept_genmsi(value));
    }
}

// 0 in direct mode.
#[tactic(auto, unfolding(crate::specs::Genmsi::genmsi_read))]
pub fn read_genmsi(part: &[u32; DOMAIN_SIZE]) -> u32
    ensures { result ≡ genmsi_read (domain_of part.now) }
{
    if domain::by_messages(part) {
        domain::genmsi(part)
    } else {
        0
    }
}

// Sent whatever IE is, and in message mode only. It comes first in `log`; answers the number of messages.
pub fn send_genmsi(
    part: &[u32; DOMAIN_SIZE],
    child: bool,
    value: u32,
    log: &mut [u32; LOG_SIZE],
) -> usize
    ensures { (log.new
        ≡ logged log.old (genmsi_sent child (domain_of part.now) value))
        × (result ≡ length (genmsi_sent child (domain_of part.now) value)) }
{
    if !domain::by_messages(part) {
        return 0;
    }
    log[0] = genmsi_message(child, value);
    1
}
