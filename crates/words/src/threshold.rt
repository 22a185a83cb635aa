// The test of a threshold, of a message file and of a delivery structure.
ghost use Rattle.std.specs.Prelude.{◌≡◌};
ghost use Rattle.words.specs.Threshold.{passes};

// The threshold lets the number through.
pub fn passes(threshold: u32, number: u32) -> bool
    ensures { result ≡ passes threshold number }
{
    (threshold == 0) | (number < threshold)
}
