// One table of calls, by the count of their numbers and by name.
ghost use Rattle.std.specs.Prelude.{◌≡◌};
ghost use Rattle.record_call.specs.Table.{call_in, same_bytes, table};

use board_call::Call;
use check::same;

// `==` of the library takes a call for each name, and some twenty instructions more a line.
fn is(name: &[u8], word: &[u8]) -> bool
    ensures { result ≡ same_bytes name.now word.now }
{
    same(name, word)
}

pub(crate) fn call_of(name: &[u8], numbers: &[u64]) -> Option<Call>
    ensures { result ≡ call_in table name.now numbers.now }
{
    match *numbers {
        [] if is(name, b"reset") => Some(Call::Reset),
        [a] if is(name, b"signals") => Some(Call::Signals(a)),
        [a, b] if is(name, b"wire") => Some(Call::Wire(a, b)),
        [a, b] if is(name, b"domain_read") => Some(Call::DomainRead(a, b)),
        [a, b] if is(name, b"top") => Some(Call::Top(a, b)),
        [a, b] if is(name, b"claim") => Some(Call::Claim(a, b)),
        [a, b, c] if is(name, b"page_read") => Some(Call::PageRead(a, b, c)),
        [a, b, c] if is(name, b"domain_write") => Some(Call::DomainWrite(
            a,
            b,
            u32::try_from(c).ok()?,
        )),
        [a, b, c, d] if is(name, b"page_write") => Some(Call::PageWrite(
            a,
            b,
            c,
            u32::try_from(d).ok()?,
        )),
        [a, b, c, d, e] if is(name, b"register") => Some(Call::Register(a, b, c, d, e)),
        [a, b, c, d, e] if is(name, b"move") => Some(Call::Move(a, b, c, d, e)),
        _ => None,
    }
}
