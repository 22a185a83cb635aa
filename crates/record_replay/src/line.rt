// A line of a record, run and answered.
ghost use Rattle.std.specs.Prelude.{◌+◌, ◌≤◌, ◌≡◌, ◌++◌, length, take};
ghost use Rattle.record_call.specs.Table.{line_of};
ghost use Rattle.record_answer.specs.Shown.{answer_room};
ghost use Rattle.record_runs.specs.Replay.{lent_of, passed_on, answer_to};

use monitor_answer::numbers;
use record_answer::{put_answer, put_number};
use record_call::read;
use sizes::{LOG_SIZE, SAVED_SIZE};

// Makes the call that the line says, and puts its answer behind the first `used` bytes of out. A line that
// cannot be read is answered by its number, and changes nothing.
pub fn end_line(
    state: &mut [u32],
    log: &mut [u32; LOG_SIZE],
    saved: &mut [u64; SAVED_SIZE],
    line: &[u8],
    out: &mut [u8],
    used: usize,
    number: u64,
) -> usize
    requires { used + answer_room ≤ length out.old }
    ensures saved_after { lent_of state.new log.new saved.new ≡
        passed_on (line_of line.now)
        (lent_of state.old log.old saved.old) }
    ensures out_after { take result out.new ≡ take used out.old ++
        answer_to number (line_of line.now)
        (lent_of state.old log.old saved.old) }
    ensures upper_bound { result ≤ used + answer_room }
{
    let Some(call) = read(line) else {
        return put_number(out, used, number);
    };
    let answer = numbers(board::apply(state, log, saved, call));
    put_answer(
        out,
        used,
        number,
        answer.refusal,
        answer.value,
        answer.count,
        log,
    )
}
