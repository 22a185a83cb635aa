// The shift that is run.
ghost use Rattle.std.specs.Prelude.{◌-◌, ◌+◌, ◌≤◌, ◌<◌, ◌^◌, ◌≡◌, [], map, length, take, replicate};
ghost use Rattle.sizes.specs.Sizes.{saved_size};
ghost use Rattle.board_runs.specs.Runs.{ran};
ghost use Rattle.record_lines.specs.Lines.{last_of};
ghost use Rattle.record_call.specs.Table.{line_of};
ghost use Rattle.record_runs.specs.Replay.{calls_in, answers_from};
ghost use Rattle.record_replay.specs.Pieces.{Went, held_at};

use crate::PIECE;
use record_lines::HeldLine;
use record_replay::{Run, end_line};
use sizes::{BLOCK_SIZE, LOG_SIZE, SAVED_SIZE};
use std::marker::Model;

// Where it is: what is lent to the next call, what is held of the next line, and how many lines have ended.
#[derive(Drop)]
pub(crate) struct Shift {
    state: [u32; BLOCK_SIZE],
    log: [u32; LOG_SIZE],
    saved: [u64; SAVED_SIZE],
    line: HeldLine,
    pub number: u64,
}

impl Model for Shift {
    ghost use Rattle.std.specs.Prelude.{◌≤◌, length};
    ghost use Rattle.record_lines.specs.Lines.{line_room};
    ghost use Rattle.record_runs.specs.Replay.{Held};
    ghost use Rattle.record_replay.specs.Pieces.{held_at};

    ghost Value = { Held };

    ghost view = { λ shift. held_at shift.state shift.log shift.saved shift.line shift.number };

    ghost invariant = { λ shift. length shift.line ≤ line_room };
}

impl Shift {
    // No line yet.
    pub fn new(state: [u32; BLOCK_SIZE], log: [u32; LOG_SIZE]) -> Self
        ensures { result ≡ held_at state log (replicate saved_size 0) [] 0 }
    {
        Shift {
            state,
            log,
            saved: [0; SAVED_SIZE],
            line: HeldLine::new(),
            number: 0,
        }
    }

    // The lines of a piece from `from` on, until it is used up or out has no room for an answer.
    pub fn some(&mut self, chunk: &[u8], from: usize, out: &mut [u8; PIECE]) -> Run
        requires { (from ≤ length chunk.now)
            × (self.old.number + (length chunk.now - from) < 2 ^ 64) }
        ensures went { Went chunk.now from self.old [] result.at self.new (take result.used out.new) }
        ensures used_in_out { result.used ≤ length out.new }
        ensures at_lt_at { from < length chunk.now → from < result.at }
    {
        let run = record_replay::some(
            &mut self.state,
            &mut self.log,
            &mut self.saved,
            &mut self.line,
            chunk,
            out,
            Run {
                number: self.number,
                at: from,
                used: 0,
            },
        );
        self.number = run.number;
        run
    }

    // The last line may lack its end; if it has no byte there is none. Gives how many bytes its answer has.
    pub fn end(&mut self, out: &mut [u8; PIECE]) -> usize
        requires { self.old.number + 1 < 2 ^ 64 }
        ensures lent { self.new.lent ≡ ran (calls_in (map line_of (last_of self.old.line))) self.old.lent }
        ensures answered { take result out.new ≡ answers_from
            (self.old.number + 1) (map line_of (last_of self.old.line)) self.old.lent }
        ensures number { self.new.number ≡ self.old.number + length (last_of self.old.line) }
        ensures used_in_out { result ≤ length out.new }
    {
        if self.line.bytes().is_empty() {
            return 0;
        }
        self.number += 1;
        end_line(
            &mut self.state,
            &mut self.log,
            &mut self.saved,
            self.line.bytes(),
            out,
            0,
            self.number,
        )
    }
}
