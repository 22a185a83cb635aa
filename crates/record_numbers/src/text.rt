// A number in decimal, put into bytes.
ghost use Rattle.std.specs.Prelude.{◌+◌, ◌≤◌, ◌≡◌, ◌++◌, length, take};
ghost use Rattle.record_numbers.specs.Decimal.{places_of, text_of, number_room};

// How many digits n takes.
fn places(n: u64) -> usize
    ensures { result ≡ places_of n }
{
    let mut k = 1;
    let mut rest = n;
    while rest > 9 {
        rest /= 10;
        k += 1;
    }
    k
}

// Puts n behind the first `at` bytes of out, and answers how many there are then.
pub fn put_decimal(out: &mut [u8], at: usize, n: u64) -> usize
    requires { at + number_room ≤ length out.old }
    ensures out_after { take result out.new ≡ take at out.old ++ text_of n }
    ensures upper_bound { result ≤ at + number_room }
    ensures lower_bound { at ≤ result }
{
    if n < 10 {
        out[at] = b'0' + n as u8;
        return at + 1;
    }
    let end = at + places(n);
    let mut rest = n;
    for i in (at..end).rev() {
        out[i] = b'0' + (rest % 10) as u8;
        rest /= 10;
    }
    end
}
