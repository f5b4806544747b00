ghost use Rattle.std.specs.Prelude.{◌≡◌};
ghost use Rattle.pcj_grammar.specs.Text.{opens, closes};
ghost use Rattle.pcj_grammar.specs.Terminal.{terminal_of, word_of, function_of, is_keyword, name_of, is_namespace, mark_of, outside_of, fault_of};

use crate::fault::FaultKind;
use pcj_lex::TokenKind;

/// What a token is in the grammar (SPARQL 1.1 Query, section 19.8).
#[derive(Clone, Copy)]
pub enum Terminal {
    /// The word `PREFIX`, in any case, as all words but `a`.
    Prefix,
    /// The word `SELECT`.
    Select,
    /// The word `DISTINCT`.
    Distinct,
    /// The word `WHERE`.
    Where,
    /// The word `GROUP`.
    Group,
    /// The word `BY`.
    By,
    /// The word `AS`.
    As,
    /// The word `COUNT`.
    Count,
    /// The word `SUM`.
    Sum,
    /// The word `MIN`.
    Min,
    /// The word `MAX`.
    Max,
    /// The word `FILTER`.
    Filter,
    /// The word `UNION`.
    Union,
    /// The word `a`, in this case.
    A,
    /// Any other word.
    Word,
    /// A variable.
    Var,
    /// An IRI in its brackets.
    Iri,
    /// A prefixed name without a local name.
    Namespace,
    /// A prefixed name with a local name.
    Name,
    /// An integer.
    Integer,
    /// A string.
    Text,
    /// A language tag.
    Tag,
    /// `{`
    OpenBrace,
    /// `}`
    CloseBrace,
    /// `(`
    OpenParen,
    /// `)`
    CloseParen,
    /// `.`
    Dot,
    /// `;`
    Semicolon,
    /// `,`
    Comma,
    /// `=`
    Equal,
    /// `!=`
    Unequal,
    /// `<`
    Less,
    /// `>`
    Greater,
    /// `<=`
    AtMost,
    /// `>=`
    AtLeast,
    /// `&&`
    And,
    /// `||`
    Or,
    /// `!`
    Not,
    /// `^^`
    Datatype,
    /// `*`
    Star,
    /// Any other token that this profile leaves out.
    Outside,
}

impl Terminal {
    /// What a token is, by its kind and its bytes.
    pub(crate) fn of(kind: TokenKind, source: &[u8]) -> Terminal
        ensures { result ≡ terminal_of kind source.now }
    {
        match kind {
            TokenKind::Word => word(source),
            TokenKind::Var => Terminal::Var,
            TokenKind::Iri => Terminal::Iri,
            TokenKind::Pname => name(source),
            TokenKind::Text => Terminal::Text,
            TokenKind::Tag => Terminal::Tag,
            TokenKind::Integer => Terminal::Integer,
            TokenKind::Mark => mark(source),
            TokenKind::Outside => outside(source),
        }
    }

    /// Whether a brace or a bracket opens.
    pub(crate) fn opens(self) -> bool
        ensures { result ≡ opens self }
    {
        matches!(self, Terminal::OpenBrace | Terminal::OpenParen)
    }

    /// Whether a brace or a bracket closes.
    pub(crate) fn closes(self) -> bool
        ensures { result ≡ closes self }
    {
        matches!(self, Terminal::CloseBrace | Terminal::CloseParen)
    }

    /// The fault of a text that has it where no text of the grammar does.
    pub(crate) fn fault(self) -> FaultKind
        ensures { result ≡ fault_of self }
    {
        match self {
            Terminal::Prefix
            | Terminal::Select
            | Terminal::Distinct
            | Terminal::Where
            | Terminal::Group
            | Terminal::By
            | Terminal::As
            | Terminal::Count
            | Terminal::Sum
            | Terminal::Min
            | Terminal::Max
            | Terminal::Filter
            | Terminal::Union
            | Terminal::A
            | Terminal::Word
            | Terminal::Star
            | Terminal::Outside => FaultKind::OutOfProfile,
            _ => FaultKind::Syntax,
        }
    }
}

/// What a word is: a keyword in any case, the predicate `a`, or none of these.
fn word(source: &[u8]) -> Terminal
    ensures { result ≡ word_of source.now }
{
    if is_keyword(source, b"prefix") {
        Terminal::Prefix
    } else if is_keyword(source, b"select") {
        Terminal::Select
    } else if is_keyword(source, b"distinct") {
        Terminal::Distinct
    } else if is_keyword(source, b"where") {
        Terminal::Where
    } else if is_keyword(source, b"group") {
        Terminal::Group
    } else if is_keyword(source, b"by") {
        Terminal::By
    } else if is_keyword(source, b"as") {
        Terminal::As
    } else if is_keyword(source, b"filter") {
        Terminal::Filter
    } else if is_keyword(source, b"union") {
        Terminal::Union
    } else if source == b"a".as_slice() {
        Terminal::A
    } else {
        function(source)
    }
}

fn function(source: &[u8]) -> Terminal
    ensures { result ≡ function_of source.now }
{
    if is_keyword(source, b"count") {
        Terminal::Count
    } else if is_keyword(source, b"sum") {
        Terminal::Sum
    } else if is_keyword(source, b"min") {
        Terminal::Min
    } else if is_keyword(source, b"max") {
        Terminal::Max
    } else {
        Terminal::Word
    }
}

fn is_keyword(source: &[u8], keyword: &[u8]) -> bool
    ensures { result ≡ is_keyword source.now keyword.now }
{
    source.eq_ignore_ascii_case(keyword)
}

fn name(source: &[u8]) -> Terminal
    ensures { result ≡ name_of source.now }
{
    if is_namespace(source) {
        Terminal::Namespace
    } else {
        Terminal::Name
    }
}

/// Whether the first colon of a prefixed name is its last byte.
fn is_namespace(source: &[u8]) -> bool
    ensures { result ≡ is_namespace source.now }
{
    let mut rest = source;
    while let [byte, more @ ..] = rest {
        if *byte == b':' {
            return more.is_empty();
        }
        rest = more;
    }
    false
}

fn mark(source: &[u8]) -> Terminal
    ensures { result ≡ mark_of source.now }
{
    match source {
        b"{" => Terminal::OpenBrace,
        b"}" => Terminal::CloseBrace,
        b"(" => Terminal::OpenParen,
        b")" => Terminal::CloseParen,
        b"." => Terminal::Dot,
        b";" => Terminal::Semicolon,
        b"," => Terminal::Comma,
        b"=" => Terminal::Equal,
        b"!=" => Terminal::Unequal,
        b"<" => Terminal::Less,
        b">" => Terminal::Greater,
        b"<=" => Terminal::AtMost,
        b">=" => Terminal::AtLeast,
        b"&&" => Terminal::And,
        b"||" => Terminal::Or,
        b"!" => Terminal::Not,
        _ => Terminal::Datatype,
    }
}

fn outside(source: &[u8]) -> Terminal
    ensures { result ≡ outside_of source.now }
{
    if source == b"*".as_slice() {
        Terminal::Star
    } else {
        Terminal::Outside
    }
}
