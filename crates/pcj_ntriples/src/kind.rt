ghost use Rattle.std.specs.Prelude.{◌≡◌};
ghost use Rattle.pcj_ntriples.specs.Kind.{number_of};

use pcj_term::{Memory, TryClone};
use std::alloc::Global;

/// What is wrong with a line: the first fault that reading it from left to right meets.
#[derive(Clone, Copy, Debug, PartialEq, Eq)]
pub enum NtKind {
    /// The line's bytes aren't UTF-8, whatever else is wrong with it.
    NotUtf8,
    /// The subject begins with neither `<` nor `_:` and a label's first character.
    SubjectExpected,
    /// The predicate doesn't begin with `<`.
    PredicateExpected,
    /// The object begins with none of `<`, `"`, or `_:` and a label's first character, or no `<` follows `^^`.
    ObjectExpected,
    /// No dot follows the object.
    DotExpected,
    /// A character that is forbidden in an IRI, raw or by an escape. A backslash is a `BadEscape`.
    IriChar,
    /// The line ends inside an IRI.
    IriOpen,
    /// The line ends inside a string.
    StringOpen,
    /// A backslash in an IRI or a string that begins no escape.
    BadEscape,
    /// No language tag follows `@`, or one that a `-` follows.
    BadTag,
    /// An IRI without a scheme.
    RelativeIri,
    /// Something other than blanks and a comment after the dot.
    TrailingText,
    /// A term of more than 16,384 bytes as it is written.
    TermTooLong,
    /// The line's triple is the 10,001st distinct one.
    TooMany,
}

/// The number by which reports name a kind: 1 to 14, in the order of the variants.
pub fn nt_number(kind: NtKind) -> u8
    ensures { result ≡ number_of kind }
{
    match kind {
        NtKind::NotUtf8 => 1,
        NtKind::SubjectExpected => 2,
        NtKind::PredicateExpected => 3,
        NtKind::ObjectExpected => 4,
        NtKind::DotExpected => 5,
        NtKind::IriChar => 6,
        NtKind::IriOpen => 7,
        NtKind::StringOpen => 8,
        NtKind::BadEscape => 9,
        NtKind::BadTag => 10,
        NtKind::RelativeIri => 11,
        NtKind::TrailingText => 12,
        NtKind::TermTooLong => 13,
        NtKind::TooMany => 14,
    }
}

impl TryClone for NtKind {
    fn try_clone(&self, _alloc: Global) -> Result<NtKind, Memory> {
        Ok(*self)
    }
}
