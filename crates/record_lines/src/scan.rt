// A byte, sought among others.
ghost use Rattle.std.specs.Prelude.{◌≡◌, ◌≤◌, length};
ghost use Rattle.record_lines.specs.Bytes.{index_of};

// The place of the first such byte, or how many bytes there are if none of them is one.
pub fn find(bytes: &[u8], byte: u8) -> usize
    ensures place { result ≡ index_of byte bytes.now }
    ensures within { result ≤ length bytes.now }
{
    match bytes.iter().position(|&b| b == byte) {
        Some(i) => i,
        None => bytes.len(),
    }
}
