ghost use Rattle.std.specs.Prelude.{◌≡◌};
ghost use Rattle.std.specs.Str.Parse.{ParsesUnsigned};
ghost use Rattle.pcj_case_lines.specs.Line.{word_of};

use crate::unanswered::Unanswered;
use pcj_term::Bytes;
use std::str::FromStr;

/// The word that a field is, or an empty one where it isn't UTF-8.
pub fn word(field: &Bytes) -> &str
    ensures { result.now ≡ word_of field.now }
{
    match str::from_utf8(field.as_slice()) {
        Ok(word) => word,
        Err(_) => "",
    }
}

/// The number that a field writes: digits, and a plus sign before them or none.
pub fn number(field: &Bytes) -> Result<u64, Unanswered>
    ensures { ParsesUnsigned 64 10 (word_of field.now) result }
{
    match word(field).parse::<u64>() {
        Ok(number) => Ok(number),
        Err(_) => Err(Unanswered::NoCase),
    }
}

/// The length or place that a field writes, as a number.
pub fn size(field: &Bytes) -> Result<usize, Unanswered>
    ensures { ParsesUnsigned 64 10 (word_of field.now) result }
{
    match word(field).parse::<usize>() {
        Ok(size) => Ok(size),
        Err(_) => Err(Unanswered::NoCase),
    }
}
