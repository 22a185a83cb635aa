// A wire set, a register read or written, with what is then sent. Messages come first in `log`.
ghost use Rattle.std.specs.Prelude.{◌≡◌, true, ◌≤◌, ◌<◌, length};
ghost use Rattle.sizes.specs.Sizes.{slot_count};
ghost use Rattle.domain_region.specs.Region.{Within};
ghost use Rattle.wired_state.specs.Wires.{wired_of, domain_in};
ghost use Rattle.wired_registers.specs.Wired.{read_in};
ghost use Rattle.wired_rules.specs.Rules.{wired_sound};
ghost use Rattle.domain_sending.specs.Sending.{logged};
ghost use Rattle.wired.specs.Controller.{genmsi_by, wire_call, read_call, write_call};
ghost use Rattle.wired.specs.Controller.{Leaves};

use super::pass::flush;
use domain_genmsi::send_genmsi;
use domain_region::{Role, Word, role_of};
use sizes::{LOG_SIZE, WIRED_SIZE};
use wired_state::domain_part;

// Answers the number of messages.
pub fn set_wire(
    w: &mut [u32; WIRED_SIZE],
    log: &mut [u32; LOG_SIZE],
    i: usize,
    level: bool,
) -> usize
    requires { (1 ≤ i) × (i < slot_count) × (wired_sound (wired_of w.old) ≡ true) }
    ensures { Leaves (wire_call (wired_of w.old) i level) (wired_of w.new)
        log.old log.new result }
{
    wired_state::set_wire(w, i, level);
    flush(w, log)
}

// Nothing is sent: a claim can only clear a pending bit.
pub fn read(w: &mut [u32; WIRED_SIZE], child: bool, word: Word) -> u32
    requires { Within word × (wired_sound (wired_of w.old) ≡ true) }
    ensures { (result ≡ read_in (wired_of w.old) child word)
        × (wired_of w.new ≡ (read_call (wired_of w.old) child word).wired) }
{
    wired_registers::read(w, child, word)
}

// The message of a write to genmsi, which is sent at once.
fn generate(
    w: &[u32; WIRED_SIZE],
    log: &mut [u32; LOG_SIZE],
    child: bool,
    word: Word,
    value: u32,
) -> usize
    ensures { (log.new ≡ logged log.old
        (genmsi_by child (domain_in (wired_of w.now) child) word value))
        × (result ≡ length (genmsi_by child (domain_in (wired_of w.now) child) word value)) }
{
    match role_of(word) {
        Role::Generates => send_genmsi(domain_part(w, child), child, value, log),
        _ => 0,
    }
}

// Answers the number of messages. That of a genmsi is the only one of its call.
pub fn write(
    w: &mut [u32; WIRED_SIZE],
    log: &mut [u32; LOG_SIZE],
    child: bool,
    word: Word,
    value: u32,
) -> usize
    requires { Within word × (wired_sound (wired_of w.old) ≡ true) }
    ensures { Leaves (write_call (wired_of w.old) child word value) (wired_of w.new)
        log.old log.new result }
{
    let n = generate(w, log, child, word, value);
    wired_registers::write(w, child, word, value);
    if n != 0 {
        return n;
    }
    flush(w, log)
}
