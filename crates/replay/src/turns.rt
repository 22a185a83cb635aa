// The pieces of standard input, one after the other, and what they answer on standard output.
ghost use Rattle.std.specs.Prelude.{◌+◌, ◌≤◌, ◌<◌, ◌^◌, ◌≡◌, map, length, OnOk};
ghost use Rattle.board_runs.specs.Runs.{ran};
ghost use Rattle.record_lines.specs.Lines.{last_of};
ghost use Rattle.record_call.specs.Table.{line_of};
ghost use Rattle.record_runs.specs.Replay.{calls_in, gone_on};

use crate::PIECE;
use crate::fault::Fault;
use crate::shift::Shift;
use std::io::{Read, Write};

// A proved loop has to end, and nothing says that the input does. So the loop counts its turns, up to a
// number that no run uses up; a turn has at most 65,536 lines, so that the number of a line has 64 bits.
const MOST_TURNS: u64 = 140737488355328;

fn write(rt: &HostRuntime, answers: &[u8]) -> Result<(), Fault> {
    rt.stdout().write_all(answers).map_err(|_| Fault::Output)
}

// One piece, and its answers, which are written each time that there is no room for more.
fn turn(
    rt: &HostRuntime,
    shift: &mut Shift,
    chunk: &[u8],
    out: &mut [u8; PIECE],
) -> Result<(), Fault>
    requires { shift.old.number + length chunk.now < 2 ^ 64 }
    ensures ok { OnOk result (shift.new ≡ gone_on chunk.now shift.old) }
    ensures number_le { shift.new.number ≤ shift.old.number + length chunk.now }
{
    // no more is held than there is room for
    let _ = &shift.number;
    let mut at = 0;
    while at < chunk.len() {
        let run = shift.some(chunk, at, out);
        at = run.at;
        write(rt, &out[..run.used])?;
    }
    Ok(())
}

// All pieces, until one cannot be read or its answers cannot be written.
fn all(
    rt: &HostRuntime,
    shift: &mut Shift,
    chunk: &mut [u8; PIECE],
    out: &mut [u8; PIECE],
) -> Result<(), Fault>
    requires { shift.old.number ≡ 0 }
    ensures { shift.new.number + 1 < 2 ^ 64 }
{
    for _ in 0..MOST_TURNS {
        let n = rt.stdin().read(chunk).map_err(|_| Fault::Input)?;
        if n == 0 {
            break;
        }
        turn(rt, shift, &chunk[..n], out)?;
    }
    Ok(())
}

fn finish(rt: &HostRuntime, shift: &mut Shift, out: &mut [u8; PIECE]) -> Result<(), Fault>
    requires { shift.old.number + 1 < 2 ^ 64 }
    ensures { shift.new.lent ≡ ran (calls_in (map line_of (last_of shift.old.line))) shift.old.lent }
{
    let used = shift.end(out);
    if used == 0 {
        return Ok(());
    }
    write(rt, &out[..used])
}

// The whole record.
pub(crate) fn run_all(
    rt: &HostRuntime,
    shift: &mut Shift,
    chunk: &mut [u8; PIECE],
    out: &mut [u8; PIECE],
) -> Result<(), Fault>
    requires { shift.old.number ≡ 0 }
{
    all(rt, shift, chunk, out)?;
    finish(rt, shift, out)
}
