ghost use Rattle.std.specs.Prelude.{◌≡◌, IfOk};
ghost use Rattle.std.specs.Option.{option_map};
ghost use Rattle.pcj_term.specs.Reading.{is_plain, unescaped, printed_byte, text_at};

use crate::pieces::{after, cut_plain, is_plain};
use crate::{Bytes, Memory};
use std::alloc::Global;

/// A text up to its closing quote, without its escapes, and what follows the quote.
pub(crate) fn text_at(alloc: Global, bytes: &[u8]) -> Result<Option<(Bytes, &[u8])>, Memory>
    ensures { IfOk result (λ parts. option_map (λ parts. (parts.0, parts.1.now)) parts ≡ text_at bytes.now) }
{
    let mut text = Vec::with_capacity(alloc, bytes.len())?;
    let (plain, mut rest) = cut_plain(bytes);
    text.extend_from_slice(plain)?;
    while let Some((byte, following)) = printed_byte(rest) {
        text.push(byte)?;
        let (plain, end) = cut_plain(following);
        text.extend_from_slice(plain)?;
        rest = end;
    }
    match after(rest, b'"') {
        Some(following) => Ok(Some((Bytes::from_vec(text), following))),
        None => Ok(None),
    }
}

/// The first byte of a text by its printed form, and what follows that.
fn printed_byte(bytes: &[u8]) -> Option<(u8, &[u8])>
    ensures { option_map (λ parts. (parts.0, parts.1.now)) result ≡ printed_byte bytes.now }
{
    match bytes {
        [b'\\', escape, rest @ ..] => Some((unescaped(*escape)?, rest)),
        [byte, rest @ ..] if is_plain(*byte) => Some((*byte, rest)),
        _ => None,
    }
}

/// The byte that a byte after a backslash stands for.
fn unescaped(escape: u8) -> Option<u8>
    ensures { result ≡ unescaped escape }
{
    match escape {
        b't' => Some(b'\t'),
        b'n' => Some(b'\n'),
        b'r' => Some(b'\r'),
        b'"' | b'\\' => Some(escape),
        _ => None,
    }
}
