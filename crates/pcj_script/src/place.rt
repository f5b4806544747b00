ghost use Rattle.std.specs.Prelude.{◌≡◌, true, false, IfSome, IfNone};
ghost use Rattle.std.specs.List.{list_all};
ghost use Rattle.pcj_script.specs.Places.{client_of, crashed_of, count_of, is_name, is_name_byte};

use crate::command::Crashed;
use crate::number::number_within;
use pcj_term::is_letter;

/// The client that a word names: `c`, and a number from 1 to 64 without a leading zero.
pub(crate) fn client_of(word: &[u8]) -> Option<u8>
    ensures { result ≡ client_of word.now }
{
    match word {
        [b'c', b'0', ..] => None,
        [b'c', digits @ ..] => Some(number_within(digits, 2, 64)? as u8),
        _ => None,
    }
}

/// Who is to be crashed.
pub(crate) fn crashed_of(word: &[u8]) -> Option<Crashed>
    ensures { result ≡ crashed_of word.now }
{
    if word == b"all".as_slice() {
        return Some(Crashed::All);
    }
    if word == b"oracle".as_slice() {
        return Some(Crashed::Oracle);
    }
    Some(Crashed::Client(client_of(word)?))
}

/// How many steps a word asks for: 1 to 7 digits that write a number from 1 to 1,000,000.
pub(crate) fn count_of(word: &[u8]) -> Option<u32>
    ensures { result ≡ count_of word.now }
{
    number_within(word, 7, 1_000_000)
}

/// The word, where it is a name: a letter, and then up to 63 letters, digits, `_` or `-`.
pub(crate) fn name_of(word: &[u8]) -> Option<&[u8]>
    ensures some { IfSome result (λ name. (name.now ≡ word.now) × (is_name word.now ≡ true)) }
    ensures none { IfNone result (is_name word.now ≡ false) }
{
    if is_name(word) { Some(word) } else { None }
}

/// Whether a query may have the name.
fn is_name(name: &[u8]) -> bool
    ensures { result ≡ is_name name.now }
{
    match name {
        [] => false,
        [first, rest @ ..] => is_letter(*first) && rest.len() <= 63 && has_name_bytes_alone(rest),
    }
}

fn has_name_bytes_alone(bytes: &[u8]) -> bool
    ensures { result ≡ list_all is_name_byte bytes.now }
{
    bytes.iter().all(|byte| is_name_byte(*byte))
}

fn is_name_byte(byte: u8) -> bool
    ensures { result ≡ is_name_byte byte }
{
    byte.is_ascii_alphanumeric() || byte == b'_' || byte == b'-'
}
