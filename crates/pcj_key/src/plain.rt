ghost use Rattle.std.specs.Prelude.{◌≡◌, take, drop};
ghost use Rattle.std.specs.List.{prefix_len};
ghost use Rattle.pcj_key.specs.Reading.{is_plain_in_key};

/// What stands before the first byte that a key has escaped or ends a part with, and what stands from there on.
pub(crate) fn cut_plain(bytes: &[u8]) -> (&[u8], &[u8])
    ensures front { result.0.now ≡ take (prefix_len is_plain_in_key bytes.now) bytes.now }
    ensures end { result.1.now ≡ drop (prefix_len is_plain_in_key bytes.now) bytes.now }
{
    bytes.split_at(plain_len(bytes))
}

fn plain_len(bytes: &[u8]) -> usize
    ensures { result ≡ prefix_len is_plain_in_key bytes.now }
{
    bytes
        .iter()
        .take_while(|byte| is_plain_in_key(**byte))
        .count()
}

/// Whether a byte of a part stands for itself in a key.
pub(crate) fn is_plain_in_key(byte: u8) -> bool
    ensures { result ≡ is_plain_in_key byte }
{
    byte > 1
}
