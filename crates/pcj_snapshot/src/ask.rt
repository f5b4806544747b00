use pcj_encode::KeyRange;
use pcj_term::Bytes;

/// Which row is asked for.
#[derive(Drop)]
pub enum Ask {
    /// The row of this key.
    Get(Bytes),
    /// The row with the least key in this range in which something is seen.
    Next(KeyRange),
}
