/// What a token is (SPARQL 1.1 Query, section 19.8).
#[derive(Clone, Copy, PartialEq, Eq)]
pub enum TokenKind {
    /// Letters, digits and underscores of ASCII, a letter first: a keyword, in any case, or the predicate `a`.
    Word,
    /// `?` or `$` and a name. Both write the one variable of that name.
    Var,
    /// An IRI in its brackets, absolute or not.
    Iri,
    /// A prefixed name: a prefix and a local name around a colon, each of which may be missing.
    Pname,
    /// A string in its quotes, as it is written.
    Text,
    /// `@` and a language tag.
    Tag,
    /// Digits, with or without a sign.
    Integer,
    /// One of `{ } ( ) . ; , = != <= >= < > && || ! ^^`.
    Mark,
    /// What the standard has and this profile leaves out, and the mark `*`: three quotes, a number that goes on
    /// as a decimal or a double, the dot before a digit, `_:`, or one of `* + - / ^ | [ ] % \`.
    Outside,
}

/// A token of a text.
#[derive(Clone, Copy)]
pub struct Token<'a> {
    /// What it is.
    pub kind: TokenKind,
    /// The place of its first byte in the text.
    pub at: usize,
    /// Its bytes, as they stand in the text.
    pub source: &'a [u8],
}

/// Why no token is given.
#[derive(Clone, Copy, PartialEq, Eq)]
pub enum LexRefusal {
    /// Past blanks and comments, at this byte of the text, no token starts.
    At(usize),
}
