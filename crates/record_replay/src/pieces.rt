// The lines of a piece of bytes, run and answered.
ghost use Rattle.std.specs.Prelude.{◌+◌, ◌-◌, ◌≤◌, ◌<◌, ◌^◌, [], length, take};
ghost use Rattle.record_lines.specs.Lines.{line_room};
ghost use Rattle.record_answer.specs.Shown.{answer_room};
ghost use Rattle.record_replay.specs.Pieces.{Went, held_at};

use crate::end_line;
use record_answer::ANSWER_ROOM;
use record_lines::HeldLine;
use sizes::{LOG_SIZE, SAVED_SIZE};

// Where a run is.
#[derive(Clone, Copy)]
pub struct Run {
    // how many lines have ended
    pub number: u64,
    // how far the piece is taken
    pub at: usize,
    // how many bytes of answers there are
    pub used: usize,
}

// The rest of a line, or of the piece.
fn one(
    state: &mut [u32],
    log: &mut [u32; LOG_SIZE],
    saved: &mut [u64; SAVED_SIZE],
    line: &mut HeldLine,
    chunk: &[u8],
    out: &mut [u8],
    run: Run,
) -> Run
    requires { (run.used + answer_room ≤ length out.old) × (run.at < length chunk.now)
        × (run.number + 1 < 2 ^ 64) }
    ensures went { Went chunk.now run.at
        (held_at state.old log.old saved.old line.old run.number) (take run.used out.old) result.at
        (held_at state.new log.new saved.new line.new result.number) (take result.used out.new) }
    ensures further { (result.used ≤ run.used + answer_room) × (run.at < result.at) }
    ensures few { length line.new ≤ line_room }
{
    let end = line.cut(chunk, run.at);
    if end < chunk.len() {
        let number = run.number + 1;
        let used = end_line(state, log, saved, line.bytes(), out, run.used, number);
        line.clear();
        return Run {
            number,
            at: end + 1,
            used,
        };
    }
    Run { at: end, ..run }
}

// The lines of a piece from `from.at` on, until it is used up or out has no room for an answer.
pub fn some(
    state: &mut [u32],
    log: &mut [u32; LOG_SIZE],
    saved: &mut [u64; SAVED_SIZE],
    line: &mut HeldLine,
    chunk: &[u8],
    out: &mut [u8],
    from: Run,
) -> Run
    requires { (answer_room ≤ length out.old) × (from.at ≤ length chunk.now)
        × (from.number + (length chunk.now - from.at) < 2 ^ 64) }
    ensures went { Went chunk.now from.at
        (held_at state.old log.old saved.old line.old from.number) [] result.at
        (held_at state.new log.new saved.new line.new result.number) (take result.used out.new) }
    ensures few { (length line.new ≤ line_room) × (result.used ≤ length out.new) }
    ensures at_lt_at { from.at < length chunk.now → from.at < result.at }
{
    // no more is held than there is room for
    let _ = line.bytes();
    let mut run = Run { used: 0, ..from };
    while run.at < chunk.len() && out.len() - run.used >= ANSWER_ROOM {
        run = one(state, log, saved, line, chunk, out, run);
    }
    run
}
