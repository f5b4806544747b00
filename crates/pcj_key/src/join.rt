ghost use Rattle.std.specs.Prelude.{◌≡◌, [], ◌∷◌, ◌++◌, IfOk, OnOk};
ghost use Rattle.std.specs.List.{flat_map};
ghost use Rattle.pcj_key.specs.Key.{byte_key, key_of};

use crate::plain::{cut_plain, is_plain_in_key};
use pcj_term::{Bytes, Memory};
use std::alloc::Global;

/// The key of a list of parts. Each part has its byte 0 written as 1 1 and its byte 1 as 1 2, and ends with
/// the byte 0.
pub fn join_parts(alloc: Global, parts: &[Bytes]) -> Result<Bytes, Memory>
    ensures { IfOk result (λ key. key ≡ key_of parts.now) }
{
    let mut key = Vec::with_capacity(alloc, key_len(parts))?;
    for part in parts {
        push_part(&mut key, part.as_slice())?;
    }
    Ok(Bytes::from_vec(key))
}

/// How many bytes the key of the parts has, or the most that can be said.
fn key_len(parts: &[Bytes]) -> usize {
    let mut len: usize = 0;
    for part in parts {
        len = len.saturating_add(part_len(part.as_slice()));
    }
    len
}

/// How many bytes a part takes in a key, its end included.
fn part_len(part: &[u8]) -> usize {
    let escapes = part.iter().filter(|byte| !is_plain_in_key(**byte)).count();
    part.len().saturating_add(escapes).saturating_add(1)
}

fn push_part(key: &mut Vec<u8>, part: &[u8]) -> Result<(), Memory>
    ensures { OnOk result (key.new.items ≡ key.old.items ++ flat_map byte_key part.now ++ 0 ∷ []) }
{
    let mut rest = part;
    loop {
        let (plain, end) = cut_plain(rest);
        key.extend_from_slice(plain)?;
        let [byte, following @ ..] = end else {
            key.push(0)?;
            return Ok(());
        };
        push_byte(key, *byte)?;
        rest = following;
    }
}

fn push_byte(key: &mut Vec<u8>, byte: u8) -> Result<(), Memory>
    ensures { OnOk result (key.new.items ≡ key.old.items ++ byte_key byte) }
{
    match byte {
        0 => key.extend_from_slice(&[1, 1])?,
        1 => key.extend_from_slice(&[1, 2])?,
        _ => key.push(byte)?,
    }
    Ok(())
}
