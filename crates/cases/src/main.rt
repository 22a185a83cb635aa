// Recorded cases, run through the board's calls. Each line of standard input is a call, or changes what the
// calls are lent; each call's answer is a line of standard output. The file stdin says the calls and the file
// stdout what a second program, which shares nothing with this one, answers to them (second/README.md).
#![tactic(auto)]

mod digest;
mod lines;
mod shown;

ghost use Rattle.std.specs.Prelude.{◌≤◌};
ghost use Rattle.cases.specs.Next.{IsNext};
ghost use Rattle.cases.specs.Piece.{IsPrefixLen};

use lines::Lengths;
use record_lines::HeldLine;
use sizes::{BLOCK_SIZE, LOG_SIZE, SAVED_SIZE};
use std::io::Read;

// Some words lie beyond the block and the log: for lengths that are too large, and so that the digest sees a
// call that writes there.
const STATE_ROOM: usize = BLOCK_SIZE + 10;

const LOG_ROOM: usize = LOG_SIZE + 7;

// How many bytes are read at once at most.
const PIECE: usize = 4096;

// Where the input is.
#[derive(Clone, Copy)]
struct Place {
    // how many bytes the piece has, and how many of them are taken
    size: usize,
    at: usize,
}

// How many bytes are read of standard input. A read that fails ends it.
fn read_some(rt: &HostRuntime, chunk: &mut [u8]) -> usize
    ensures { IsPrefixLen result chunk.new }
{
    match rt.stdin().read(chunk) {
        Ok(n) => n,
        Err(_) => 0,
    }
}

// What comes next.
#[derive(Clone, Copy)]
enum Next {
    // the line is whole; the last one may lack its end
    Line(Place),
    // the line goes on in the next piece
    Piece(Place),
    // no line is left, or only the one that is held
    End,
}

// The rest of the line, or of the piece, and then the next piece.
fn take(rt: &HostRuntime, chunk: &mut [u8; PIECE], line: &mut HeldLine, from: Place) -> Next
    requires prefix_len { IsPrefixLen from.size chunk.old }
    requires at_le_size { from.at ≤ from.size }
    ensures { IsNext result chunk.new }
{
    let end = line.cut(&chunk[..from.size], from.at);
    if end < from.size {
        return Next::Line(Place {
            size: from.size,
            at: end + 1,
        });
    }
    match read_some(rt, chunk) {
        0 => Next::End,
        size => Next::Piece(Place { size: size, at: 0 }),
    }
}

// A proved loop has to end, and nothing says that the input does. So the loop counts its turns, up to a
// number that no run uses up.
fn main(rt: HostRuntime) {
    let mut state = [0u32; STATE_ROOM];
    let mut log = [0u32; LOG_ROOM];
    let mut saved = [0u64; SAVED_SIZE];
    let mut chunk = [0u8; PIECE];
    let mut line = HeldLine::new();
    let mut lent = Lengths {
        state: BLOCK_SIZE,
        log: LOG_SIZE,
    };
    let mut place = Place { size: 0, at: 0 };
    let mut number: u64 = 0;
    for _ in 0..u64::MAX {
        let next = take(&rt, &mut chunk, &mut line, place);
        let held = line.bytes();
        if matches!(next, Next::Line(_)) || matches!(next, Next::End) && !held.is_empty() {
            number += 1;
            lent = lines::end_line(&rt, &mut state, &mut log, &mut saved, held, number, lent);
            line.clear();
        }
        match next {
            Next::Line(to) | Next::Piece(to) => place = to,
            Next::End => break,
        }
    }
}
