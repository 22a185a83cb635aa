// A field that is a number.
ghost use Rattle.std.specs.Prelude.{◌≡◌};
ghost use Rattle.record_numbers.specs.Decimal.{number_in};

// A number of 64 bits in decimal digits, at least one.
pub fn decimal(field: &[u8]) -> Option<u64>
    ensures { result ≡ number_in field.now }
{
    if field.is_empty() {
        return None;
    }
    let mut value: u64 = 0;
    for &byte in field {
        if byte < b'0' || byte > b'9' {
            return None;
        }
        let digit = (byte - b'0') as u64;
        value = value.checked_mul(10)?.checked_add(digit)?;
    }
    Some(value)
}
