// The two 32-bit words of a set that one 64-bit register shows.
ghost use Rattle.std.specs.Prelude.{◌≡◌};
ghost use Rattle.file_select.specs.Halves.{doubleword, put_halves, put_doubleword};

use sizes::FILE_SET_SIZE;

// Words 2 j and 2 j + 1 as one number; past the last word, 0.
#[tactic(auto, unfolding(crate::specs::Halves::doubleword))]
pub fn doubleword(ws: [u32; FILE_SET_SIZE], j: u64) -> u64
    ensures { result ≡ doubleword ws j }
{
    if 3 < j {
        return 0;
    }
    let at = (j * 2) as usize;
    words::joined64(ws[at], ws[at + 1])
}

// The same two words replaced.
#[tactic(auto, unfolding(crate::specs::Halves::put_halves))]
pub fn put_halves(mut ws: [u32; FILE_SET_SIZE], j: u64, value: u64) -> [u32; FILE_SET_SIZE]
    ensures { result ≡ put_halves ws j value }
{
    if 3 < j {
        return ws;
    }
    let at = (j * 2) as usize;
    ws[at] = words::low32(value);
    ws[at + 1] = words::high32(value);
    ws
}

// Identity 0 has no bit: what is written there is dropped.
#[tactic(auto, unfolding(crate::specs::Halves::put_doubleword))]
pub fn put_doubleword(ws: [u32; FILE_SET_SIZE], j: u64, value: u64) -> [u32; FILE_SET_SIZE]
    ensures { result ≡ put_doubleword ws j value }
{
    if j == 0 {
        return put_halves(ws, 0, words::without64(value, 1));
    }
    put_halves(ws, j, value)
}
