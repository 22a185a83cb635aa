// A recorded shift, run from reset: a record on standard input, an answer for each of its lines on standard
// output (docs/RECORD.md). A fault is told on standard error. No arguments are read.
#![tactic(auto)]

mod fault;
mod shift;
mod turns;

use fault::Fault;
use shift::Shift;
use sizes::{BLOCK_SIZE, LOG_SIZE};

// How many bytes are read at once at most, and how many of answers are held.
const PIECE: usize = 65536;

// What could not be done, and the last line before it. Where this cannot be written either, nothing is told.
fn tell(rt: &HostRuntime, fault: Fault, number: u64) {
    let _ = eprintln!(rt; "replay: standard {fault}, after line {number}");
}

fn main(rt: HostRuntime) {
    let mut state = [0u32; BLOCK_SIZE];
    let mut log = [0u32; LOG_SIZE];
    let _ = board_hart_calls::reset(&mut state, &mut log);
    let mut shift = Shift::new(state, log);
    let mut chunk = [0u8; PIECE];
    let mut out = [0u8; PIECE];
    if let Err(fault) = turns::run_all(&rt, &mut shift, &mut chunk, &mut out) {
        tell(&rt, fault, shift.number);
    }
}
