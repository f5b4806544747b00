ghost use Rattle.std.specs.Prelude.{◌≡◌, ◌<◌, length, IfOk};
ghost use Rattle.pcj_key.specs.Order.{end_of};

use pcj_term::{Bytes, Memory};
use std::alloc::Global;

/// The end of the range of a prefix: the prefix with its last byte replaced by 1. Where the prefix is the key
/// of one part or more, all bytes that begin with it lie below, and no others that lie above it less its last
/// byte.
pub fn prefix_end(alloc: Global, prefix: &[u8]) -> Result<Bytes, Memory>
    requires { 0 < length prefix.now }
    ensures { IfOk result (λ end. end ≡ end_of prefix.now) }
{
    let mut end = Vec::with_capacity(alloc, prefix.len())?;
    end.extend_from_slice(&prefix[..prefix.len() - 1])?;
    end.push(1)?;
    Ok(Bytes::from_vec(end))
}
