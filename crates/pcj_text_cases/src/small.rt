use pcj_case_lines::{Unanswered, word};
use pcj_term::Bytes;
use std::str::FromStr;

/// The number below 256 that a field writes.
pub(crate) fn small(field: &Bytes) -> Result<u8, Unanswered> {
    word(field).parse::<u8>().ok().ok_or(Unanswered::NoCase)
}
