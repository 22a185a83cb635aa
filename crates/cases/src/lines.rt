// What a line does.
ghost use Rattle.std.specs.Prelude.{◌≤◌, ◌≡◌, length, take, drop, IfSome};
ghost use Rattle.board_call.specs.Outcome.{outcome};
ghost use Rattle.monitor_answer.specs.Told.{Told};
ghost use Rattle.cases.specs.Lendable.{Lendable};
ghost use Rattle.cases.specs.Own.{IsOwn};

use crate::{LOG_ROOM, STATE_ROOM, shown};
use board_call::Call;
use monitor_answer::VskAnswer;
use record_call::read;
use record_fields::{name_end, numbers};
use record_lines::LINE_SIZE;
use sizes::{BLOCK_SIZE, SAVED_SIZE};

// How many words of the state and of the log are lent.
#[derive(Clone, Copy)]
pub struct Lengths {
    pub state: usize,
    pub log: usize,
}

// Makes the call that the line says, or does what a line of this program's own says.
pub(crate) fn end_line(
    rt: &HostRuntime,
    state: &mut [u32; STATE_ROOM],
    log: &mut [u32; LOG_ROOM],
    saved: &mut [u64; SAVED_SIZE],
    line: &[u8],
    number: u64,
    lent: Lengths,
) -> Lengths
    requires { Lendable lent.state lent.log }
    ensures { Lendable result.state result.log }
{
    let Some(call) = read(line) else {
        return own_line(rt, state, line, number, lent);
    };
    let answer = lend(state, log, saved, call, lent.state, lent.log);
    shown::answer(rt, number, answer, state, log, saved);
    lent
}

// A call is lent the first words of the state and of the log, and leaves the others.
fn lend(
    state: &mut [u32],
    log: &mut [u32],
    saved: &mut [u64; SAVED_SIZE],
    call: Call,
    words: usize,
    messages: usize,
) -> VskAnswer
    requires { (words ≤ length state.old) × (messages ≤ length log.old) }
    ensures told { Told
        (outcome call (take words state.old) (take messages log.old)
        saved.old)
        result (take words state.new) (take messages log.new) saved.new }
    ensures state_unchanged { (drop words state.new ≡ drop words state.old)
        × (drop messages log.new ≡ drop messages log.old) }
{
    monitor_answer::numbers(board::apply(&mut state[..words], &mut log[..messages], saved, call))
}

// What a line of this program's own says.
enum Own {
    Poke(usize, u32),
    Lengths(Lengths),
}

// `poke` makes a state that no call leaves, so that the state rules are seen to be tested; `lengths` lends
// too few words or too many, so that the lengths are.
fn read_own(line: &[u8]) -> Option<Own>
    ensures { IfSome result IsOwn }
{
    if line.len() > LINE_SIZE {
        return None;
    }
    let end = name_end(line);
    let name = &line[..end];
    let fields = numbers(line, end)?;
    let &[a, b] = fields.as_slice() else {
        return None;
    };
    if name == b"poke".as_slice() && a < BLOCK_SIZE as u64 {
        return Some(Own::Poke(a as usize, u32::try_from(b).ok()?));
    }
    if name == b"lengths".as_slice() && a <= STATE_ROOM as u64 && b <= LOG_ROOM as u64 {
        return Some(Own::Lengths(Lengths {
            state: a as usize,
            log: b as usize,
        }));
    }
    None
}

// Any other line is answered by its number, and changes nothing.
fn own_line(
    rt: &HostRuntime,
    state: &mut [u32; STATE_ROOM],
    line: &[u8],
    number: u64,
    lent: Lengths,
) -> Lengths
    requires { Lendable lent.state lent.log }
    ensures { Lendable result.state result.log }
{
    match read_own(line) {
        Some(Own::Poke(at, word)) => {
            state[at] = word;
            lent
        }
        Some(Own::Lengths(lengths)) => lengths,
        None => {
            shown::unreadable(rt, number);
            lent
        }
    }
}
