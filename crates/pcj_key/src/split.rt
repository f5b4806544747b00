ghost use Rattle.std.specs.Prelude.{◌≡◌, IfOk, false};
ghost use Rattle.std.specs.Option.{option_map, option_copied};
ghost use Rattle.pcj_key.specs.Key.{Splits};
ghost use Rattle.pcj_key.specs.Reading.{first_part, key_byte};
ghost use Rattle.pcj_term.specs.Reading.{after};

use crate::plain::{cut_plain, is_plain_in_key};
use pcj_term::{Bytes, Items, Memory};
use std::alloc::Global;

/// The parts whose key this is, or `None` where it is the key of no list of parts.
pub fn split_parts(alloc: Global, key: &[u8]) -> Result<Option<Items<Bytes>>, Memory>
    ensures { IfOk result (λ split. Splits key.now split) }
{
    let mut parts = Vec::with_capacity(alloc, ends(key))?;
    let mut rest = key;
    while !rest.is_empty() {
        let Some((part, following)) = first_part(alloc, rest)? else {
            return Ok(None);
        };
        parts.push(part)?;
        rest = following;
    }
    Ok(Some(Items::from_vec(parts)))
}

/// How many ends of parts there are.
fn ends(key: &[u8]) -> usize {
    key.iter().filter(|byte| **byte == 0).count()
}

/// The first part of a key, and what follows its end.
fn first_part(alloc: Global, key: &[u8]) -> Result<Option<(Bytes, &[u8])>, Memory>
    ensures { IfOk result (λ found. option_map (λ split. (split.0, split.1.now)) found ≡ first_part false key.now) }
{
    let mut part = Vec::with_capacity(alloc, first_len(key))?;
    let (plain, mut rest) = cut_plain(key);
    part.extend_from_slice(plain)?;
    while let Some((byte, following)) = key_byte(rest) {
        part.push(byte)?;
        let (plain, end) = cut_plain(following);
        part.extend_from_slice(plain)?;
        rest = end;
    }
    match after_end(rest) {
        Some(following) => Ok(Some((Bytes::from_vec(part), following))),
        None => Ok(None),
    }
}

/// The first byte of a part by what stands for it in a key, and what follows that.
fn key_byte(key: &[u8]) -> Option<(u8, &[u8])>
    ensures { option_map (λ parts. (parts.0, parts.1.now)) result ≡ key_byte key.now }
{
    match key {
        [byte, rest @ ..] if is_plain_in_key(*byte) => Some((*byte, rest)),
        [1, 1, rest @ ..] => Some((0, rest)),
        [1, 2, rest @ ..] => Some((1, rest)),
        _ => None,
    }
}

/// What follows the end of a part, where it stands at the front.
fn after_end(key: &[u8]) -> Option<&[u8]>
    ensures { option_copied result ≡ after 0 key.now }
{
    match key {
        [0, rest @ ..] => Some(rest),
        _ => None,
    }
}

/// How many bytes stand before the first end of a part.
fn first_len(key: &[u8]) -> usize {
    key.iter().take_while(|byte| **byte != 0).count()
}
