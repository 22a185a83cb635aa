// The pass after a change: each domain sends what is to be sent.
ghost use Rattle.std.specs.Prelude.{◌≡◌, length};
ghost use Rattle.domain_sending.specs.Sending.{sent, logged};
ghost use Rattle.wired_state.specs.Wires.{wired_of, domain_in, with_domain};
ghost use Rattle.wired.specs.Controller.{flushed, OneSends, Leaves};

use domain_sending::send;
use sizes::{LOG_SIZE, WIRED_SIZE};
use wired_state::place_of;

fn send_of(w: &mut [u32; WIRED_SIZE], child: bool, log: &mut [u32; LOG_SIZE]) -> usize
    ensures { (wired_of w.new ≡ with_domain (wired_of w.old) child
        (sent child (domain_in (wired_of w.old) child)).domain)
        × (log.new ≡ logged log.old (sent child (domain_in (wired_of w.old) child)).messages)
        × (result ≡ length (sent child (domain_in (wired_of w.old) child)).messages) }
{
    let (_, words) = w.split_at_mut(place_of(child));
    send(words.first_chunk_mut().unwrap(), child, log)
}

// Both domains never send in one call. The messages come first in `log`; answers their number.
pub fn flush(w: &mut [u32; WIRED_SIZE], log: &mut [u32; LOG_SIZE]) -> usize
    requires { OneSends (wired_of w.old) }
    ensures { Leaves (flushed (wired_of w.old)) (wired_of w.new) log.old
        log.new result }
{
    let n = send_of(w, false, log);
    if n != 0 {
        return n;
    }
    send_of(w, true, log)
}
