// What a line says: a call by its name and its numbers, or nothing that can be read.
#![tactic(auto)]

mod names;

ghost use Rattle.std.specs.Prelude.{◌≡◌};
ghost use Rattle.record_call.specs.Table.{line_of};

use board_call::Call;
use record_fields::{name_end, numbers};
use record_lines::LINE_SIZE;

// A line that is too long cannot be read, whatever it says.
pub fn read(line: &[u8]) -> Option<Call>
    ensures { result ≡ line_of line.now }
{
    if line.len() > LINE_SIZE {
        return None;
    }
    let end = name_end(line);
    let fields = numbers(line, end)?;
    names::call_of(&line[..end], fields.as_slice())
}
