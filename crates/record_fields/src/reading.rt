// The numbers of a line.
ghost use Rattle.std.specs.Prelude.{ℕ, ◌-◌, ◌≡◌, ◌≤◌, ◌<◌, List, [], ◌∷◌, ◌++◌, length, take, drop};
ghost use Rattle.std.specs.Prelude.{replicate, OnSome, MatchOption};
ghost use Rattle.std.proofs.Common.{arith, refl, length-take-le, take-append-drop};
ghost use Rattle.record_fields.specs.Fields.{tab, texts_of, numbers_in, most_numbers};
ghost use Rattle.record_lines.specs.Bytes.{index_of};

use crate::MOST_NUMBERS;
use record_lines::find;
use record_numbers::decimal;
use std::marker::Model;

// No more numbers than some call has. Clauses see them as a list.
#[derive(Clone, Copy)]
pub struct Fields {
    room: [u64; MOST_NUMBERS],
    count: usize,
}

impl Model for Fields {
    ghost Value = { List ℕ };

    ghost view = { λ fields. take fields.count fields.room };

    // what is beyond the numbers is zero, so that they tell the room
    ghost invariant = { λ fields. (fields.count ≤ most_numbers) × (length fields.room ≡ most_numbers)
        × (drop fields.count fields.room ≡ replicate (most_numbers - fields.count) 0) };

    ghost inverse = { λ ns. record {
      room = ns ++ replicate (most_numbers - length ns) 0;
      count = length ns;
    } };

    ghost inverse_ok = { λ fields h.
        rw (
          length-take-le fields.count fields.room (omega arith),
          ← h.2,
          take-append-drop fields.count fields.room,
        ) refl };
}

impl Fields {
    fn new() -> Self
        ensures { result ≡ [] }
    {
        Fields {
            room: [0; MOST_NUMBERS],
            count: 0,
        }
    }

    // One number more, if there is room for it.
    fn add(&mut self, number: u64) -> Option<()>
        ensures added { OnSome result (self.new ≡ self.old ++ number ∷ []) }
        ensures full { MatchOption result (most_numbers ≤ length self.old)
            (λ _. length self.old < most_numbers) }
    {
        if self.count == MOST_NUMBERS {
            return None;
        }
        self.room[self.count] = number;
        self.count += 1;
        Some(())
    }

    pub fn as_slice(&self) -> &[u64]
        ensures numbers { result.now ≡ self.now }
        ensures few { length self.now ≤ most_numbers }
    {
        &self.room[..self.count]
    }
}

// The numbers of a line whose name ends before byte `end`, if they are numbers and not too many.
pub fn numbers(line: &[u8], end: usize) -> Option<Fields>
    requires { (end ≡ index_of tab line.now) × (end ≤ length line.now) }
    ensures { result ≡ numbers_in (texts_of line.now) }
{
    let mut fields = Fields::new();
    let mut at = end;
    while at < line.len() {
        let rest = &line[at + 1..];
        let n = find(rest, b'\t');
        fields.add(decimal(&rest[..n])?)?;
        at += 1 + n;
    }
    Some(fields)
}
