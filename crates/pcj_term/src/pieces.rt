ghost use Rattle.std.specs.Prelude.{◌≡◌, take, drop};
ghost use Rattle.std.specs.List.{prefix_len};
ghost use Rattle.std.specs.Option.{option_map, option_copied};
ghost use Rattle.pcj_term.specs.Reading.{after, before, cut, iri_of, is_canonical, is_plain, number_of_digits};

use crate::iri::is_absolute_iri;

/// What follows a byte, where it stands at the front.
pub(crate) fn after(bytes: &[u8], byte: u8) -> Option<&[u8]>
    ensures { option_copied result ≡ after byte bytes.now }
{
    match bytes {
        [first, rest @ ..] if *first == byte => Some(rest),
        _ => None,
    }
}

/// What stands before a byte, where it stands at the end.
fn before(bytes: &[u8], byte: u8) -> Option<&[u8]>
    ensures { option_copied result ≡ before byte bytes.now }
{
    match bytes {
        [] => None,
        [rest @ .., last] => (*last == byte).then_some(rest),
    }
}

/// What stands before the first such byte, and what stands after it.
pub(crate) fn cut(bytes: &[u8], byte: u8) -> Option<(&[u8], &[u8])>
    ensures { option_map (λ parts. (parts.0.now, parts.1.now)) result ≡ cut byte bytes.now }
{
    let at = bytes.iter().position(|other| *other == byte)?;
    let (front, end) = bytes.split_at(at);
    Some((front, after(end, byte)?))
}

/// What stands before the first byte that isn't printed as it is, and what stands from there on.
pub(crate) fn cut_plain(bytes: &[u8]) -> (&[u8], &[u8])
    ensures front { result.0.now ≡ take (prefix_len is_plain bytes.now) bytes.now }
    ensures end { result.1.now ≡ drop (prefix_len is_plain bytes.now) bytes.now }
{
    bytes.split_at(plain_len(bytes))
}

/// How many bytes stand before the first that isn't printed as it is.
fn plain_len(bytes: &[u8]) -> usize
    ensures { result ≡ prefix_len is_plain bytes.now }
{
    bytes.iter().take_while(|byte| is_plain(**byte)).count()
}

/// Whether a byte is printed as it is.
#[tactic(auto, unfolding(crate::specs::Reading::is_plain))]
pub(crate) fn is_plain(byte: u8) -> bool
    ensures { result ≡ is_plain byte }
{
    !matches!(byte, b'\t' | b'\n' | b'\r' | b'"' | b'\\')
}

/// An absolute IRI without its brackets, where the bytes are one in brackets.
#[tactic(auto, unfolding(crate::specs::Reading::iri_of))]
pub(crate) fn iri_of(bytes: &[u8]) -> Option<&[u8]>
    ensures { option_copied result ≡ iri_of bytes.now }
{
    let iri = before(after(bytes, b'<')?, b'>')?;
    if is_absolute_iri(iri) {
        Some(iri)
    } else {
        None
    }
}

/// The number that digits write, where they are those that a `u64` is printed with.
pub(crate) fn number_of_digits(digits: &[u8]) -> Option<u64>
    ensures { result ≡ number_of_digits digits.now }
{
    if !is_canonical(digits) {
        return None;
    }
    match str::from_utf8(digits) {
        Ok(text) => text.parse().ok(),
        Err(_) => None,
    }
}

/// Whether a digit stands first, and no zero before other bytes.
fn is_canonical(digits: &[u8]) -> bool
    ensures { result ≡ is_canonical digits.now }
{
    matches!(digits, [b'0'] | [b'1'..=b'9', ..])
}
