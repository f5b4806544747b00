ghost use Rattle.std.specs.Prelude.{◌≡◌, ◌≤◌, true, length};
ghost use Rattle.std.specs.List.{list_all};
ghost use Rattle.pcj_term.specs.Iri.{is_digit};
ghost use Rattle.pcj_script.specs.Places.{number_within, value_of};

/// The number from 1 to `high` that at most `most` digits write.
pub(crate) fn number_within(digits: &[u8], most: usize, high: u32) -> Option<u32>
    requires { most ≤ 7 }
    ensures { result ≡ number_within most high digits.now }
{
    if digits.len() > most || !are_digits(digits) {
        return None;
    }
    let value = value_of(digits);
    if value >= 1 && value <= high {
        Some(value)
    } else {
        None
    }
}

fn are_digits(bytes: &[u8]) -> bool
    ensures { result ≡ list_all is_digit bytes.now }
{
    bytes.iter().all(|byte| is_digit(*byte))
}

fn is_digit(byte: u8) -> bool
    ensures { result ≡ is_digit byte }
{
    byte.is_ascii_digit()
}

/// The number that the digits write.
fn value_of(digits: &[u8]) -> u32
    requires short { length digits.now ≤ 7 }
    requires digits { list_all is_digit digits.now ≡ true }
    ensures { result ≡ value_of digits.now }
{
    let mut value = 0;
    for digit in digits {
        value = 10 * value + u32::from(*digit - b'0');
    }
    value
}
