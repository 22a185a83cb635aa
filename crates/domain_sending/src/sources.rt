// The pass over a domain's sources: each that is active, pending and enabled is sent, lowest first.
ghost use Rattle.std.specs.Prelude.{◌≡◌, ◌+◌, ◌<◌, length};
ghost use Rattle.std.proofs.lemmas.List.Edits.{sets};
ghost use Rattle.sizes.specs.Sizes.{source_count, slot_count, log_size};
ghost use Rattle.domain.specs.Domain.{domain_of, sends};
ghost use Rattle.domain_sending.specs.Sending.{served_at, messages_at, sent_from, sent, logged};

use domain::{by_messages, enabled, load, put_pending, standing};
use sizes::{DOMAIN_SIZE, LOG_SIZE};
use source_target::message;
use words_masks::Members;

fn sends(part: &[u32; DOMAIN_SIZE]) -> bool
    ensures { result ≡ sends (domain_of part.now) }
{
    enabled(part) & by_messages(part)
}

// The turn of source `i`, with `n` messages in the log. Answers how many there are then.
#[tactic(auto, unfolding(crate::specs::Sending::served_at, crate::specs::Sending::messages_at))]
fn serve(
    part: &mut [u32; DOMAIN_SIZE],
    child: bool,
    log: &mut [u32; LOG_SIZE],
    i: usize,
    n: usize,
) -> usize
    requires { (i < slot_count) × (n < log_size) }
    ensures { (domain_of part.new ≡ served_at (domain_of part.old) i)
        × (log.new ≡ sets log.old n (messages_at child (domain_of part.old) i))
        × (result ≡ n + length (messages_at child (domain_of part.old) i)) }
{
    let s = load(part, i);
    if !s.candidate() {
        return n;
    }
    log[n] = message(child, s.target);
    put_pending(part, i, false);
    n + 1
}

// From one pending and enabled source to the next. There is no source 0.
fn pass(part: &mut [u32; DOMAIN_SIZE], child: bool, log: &mut [u32; LOG_SIZE]) -> usize
    ensures { (domain_of part.new ≡ (sent_from child (domain_of part.old) 1 source_count).domain)
        × (log.new
        ≡ logged log.old (sent_from child (domain_of part.old) 1 source_count).messages)
        × (result ≡ length (sent_from child (domain_of part.old) 1 source_count).messages) }
{
    let mut n: usize = 0;
    for i in Members::from(standing(part), 1) {
        n = serve(part, child, log, i, n);
    }
    n
}

// Sends what is to be sent. The messages come first in `log`; answers their number.
#[tactic(auto, unfolding(crate::specs::Sending::sent, crate::specs::Sending::logged))]
pub fn send(part: &mut [u32; DOMAIN_SIZE], child: bool, log: &mut [u32; LOG_SIZE]) -> usize
    ensures { (domain_of part.new ≡ (sent child (domain_of part.old)).domain)
        × (log.new ≡ logged log.old (sent child (domain_of part.old)).messages)
        × (result ≡ length (sent child (domain_of part.old)).messages) }
{
    if sends(part) {
        pass(part, child, log)
    } else {
        0
    }
}
