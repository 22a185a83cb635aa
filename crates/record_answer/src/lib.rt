// An answer as a line of decimal numbers with a tab between two, put into bytes.
#![tactic(auto)]

ghost use Rattle.std.specs.Prelude.{◌+◌, ◌*◌, ◌≤◌, ◌≡◌, [], ◌∷◌, ◌++◌, length, take};
ghost use Rattle.sizes.specs.Sizes.{log_size};
ghost use Rattle.record_answer.specs.Shown.{fields_shown, line_shown, field_room, answer_room};

use record_numbers::{NUMBER_ROOM, put_decimal};
use sizes::LOG_SIZE;

// How many bytes a number takes at most, with the tab before it or the end behind it.
pub const FIELD_ROOM: usize = NUMBER_ROOM + 1;

// How many bytes an answer takes at most.
pub const ANSWER_ROOM: usize = (4 + LOG_SIZE) * FIELD_ROOM + 1;

// Puts n behind a tab, behind the first `at` bytes of out, and answers how many there are then.
fn put_field(out: &mut [u8], at: usize, n: u64) -> usize
    requires { at + field_room ≤ length out.old }
    ensures out_after { take result out.new ≡ take at out.old ++ fields_shown (n ∷ []) }
    ensures upper_bound { result ≤ at + field_room }
    ensures lower_bound { at ≤ result }
{
    out[at] = b'\t';
    put_decimal(out, at + 1, n)
}

// Words of a log, each behind a tab.
fn put_words(out: &mut [u8], at: usize, words: &[u32]) -> usize
    requires { at + length words.now * field_room ≤ length out.old }
    ensures out_after { take result out.new ≡ take at out.old ++ fields_shown words.now }
    ensures upper_bound { result ≤ at + length words.now * field_room }
{
    let mut end = at;
    for &word in words {
        end = put_field(out, end, word as u64);
    }
    end
}

// The number of a line alone, as a line.
pub fn put_number(out: &mut [u8], at: usize, number: u64) -> usize
    requires { at + field_room ≤ length out.old }
    ensures out_after { take result out.new ≡ take at out.old ++ line_shown (number ∷ []) }
    ensures upper_bound { result ≤ at + field_room }
{
    let end = put_decimal(out, at, number);
    out[end] = b'\n';
    end + 1
}

// The number of a line, the refusal, the value, the count and the messages, as a line.
pub fn put_answer(
    out: &mut [u8],
    at: usize,
    number: u64,
    refusal: u32,
    value: u64,
    count: u32,
    log: &[u32],
) -> usize
    requires { (at + answer_room ≤ length out.old) × (length log.now ≤ log_size) }
    ensures out_after { take result out.new ≡ take at out.old
        ++ line_shown (number ∷ refusal ∷ value ∷ count ∷ take count log.now) }
    ensures upper_bound { result ≤ at + answer_room }
{
    let numbered = put_decimal(out, at, number);
    let refused = put_field(out, numbered, refusal as u64);
    let valued = put_field(out, refused, value);
    let counted = put_field(out, valued, count as u64);
    let logged = put_words(out, counted, &log[..log.len().min(count as usize)]);
    out[logged] = b'\n';
    logged + 1
}
