// The line that has not ended.
ghost use Rattle.std.specs.Prelude.{ℕ, ◌≤◌, ◌<◌, ◌≡◌, List, [], length, take, get_or};
ghost use Rattle.record_lines.specs.Lines.{CutAt, line_feed, line_room};

use crate::{LINE_ROOM, find};
use std::marker::Model;

// What is kept of the line so far. Clauses see these bytes.
#[derive(Drop)]
pub struct HeldLine {
    room: [u8; LINE_ROOM],
    held: usize,
}

impl Model for HeldLine {
    ghost Value = { List ℕ };

    ghost view = { λ line. take line.held line.room };

    ghost invariant = { λ line. line.held ≤ line_room };
}

impl HeldLine {
    pub fn new() -> Self
        ensures { result ≡ [] }
    {
        HeldLine {
            room: [0; LINE_ROOM],
            held: 0,
        }
    }

    // What was held before.
    pub fn of(bytes: &[u8]) -> Self
        requires { length bytes.now ≤ line_room }
        ensures { result ≡ bytes.now }
    {
        let mut room = [0; LINE_ROOM];
        room[..bytes.len()].copy_from_slice(bytes);
        HeldLine {
            room,
            held: bytes.len(),
        }
    }

    pub fn bytes(&self) -> &[u8]
        ensures bytes { result.now ≡ self.now }
        ensures few { length self.now ≤ line_room }
    {
        &self.room[..self.held]
    }

    // The next line begins.
    pub fn clear(&mut self)
        ensures { self.new ≡ [] }
    {
        self.held = 0;
    }

    // Takes the bytes of a piece from `from` on, up to the end of the line or of the piece, and answers where
    // that is.
    pub fn cut(&mut self, chunk: &[u8], from: usize) -> usize
        requires { from ≤ length chunk.now }
        ensures cut_at { CutAt chunk.now from self.old result self.new }
        ensures few { length self.new ≤ line_room }
        ensures at_value { result < length chunk.now → get_or chunk.now result 0 ≡ line_feed }
    {
        let much = find(&chunk[from..], b'\n');
        let n = much.min(LINE_ROOM - self.held);
        let end = self.held + n;
        self.room[self.held..end].copy_from_slice(&chunk[from..from + n]);
        self.held = end;
        from + much
    }
}
