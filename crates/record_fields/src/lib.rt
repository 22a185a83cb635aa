// The fields of a line: a name, then decimal numbers, each after one tab.
#![tactic(auto)]

mod reading;

ghost use Rattle.std.specs.Prelude.{◌≡◌, ◌≤◌, length, take};
ghost use Rattle.record_fields.specs.Fields.{tab, name_of};
ghost use Rattle.record_lines.specs.Bytes.{index_of};

pub use reading::{Fields, numbers};
use record_lines::find;

// More numbers than these no call has.
pub const MOST_NUMBERS: usize = 5;

// Where the name of a line ends.
pub fn name_end(line: &[u8]) -> usize
    ensures value { result ≡ index_of tab line.now }
    ensures line_value { take result line.now ≡ name_of line.now }
    ensures upper_bound { result ≤ length line.now }
{
    find(line, b'\t')
}
