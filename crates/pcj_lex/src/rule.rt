ghost use Rattle.std.specs.Prelude.{◌≡◌};
ghost use Rattle.pcj_lex.specs.Rules.{kind_of, may_follow, continues_number};

use crate::reader::Reader;
use crate::token::TokenKind;

/// A rule of tokens. They are tried in the order of the variants.
#[derive(Clone, Copy)]
pub(crate) enum Rule {
    /// `"""` or `'''`, which begin a long string.
    LongQuotes,
    /// A string in its quotes.
    Text,
    /// A quote that begins no string.
    OpenQuote,
    /// An IRI in its brackets.
    Iri,
    /// `<=` or `<`.
    Less,
    /// `?` or `$` and a name.
    Variable,
    /// `@` and a language tag.
    Tag,
    /// An integer with which a decimal or a double begins.
    Inexact,
    /// Any other integer.
    Integer,
    /// The dot before a digit.
    Fraction,
    /// `_:`, which begins a blank node.
    BlankNode,
    /// A prefixed name.
    Name,
    /// A word.
    Word,
    /// A mark.
    Mark,
    /// A mark that this profile leaves out.
    Outside,
}

impl Rule {
    /// The kind of a token by this rule, or `None` where no token starts.
    pub(crate) fn kind(self) -> Option<TokenKind>
        ensures { result ≡ kind_of self }
    {
        match self {
            Rule::OpenQuote => None,
            Rule::Text => Some(TokenKind::Text),
            Rule::Iri => Some(TokenKind::Iri),
            Rule::Variable => Some(TokenKind::Var),
            Rule::Tag => Some(TokenKind::Tag),
            Rule::Integer => Some(TokenKind::Integer),
            Rule::Name => Some(TokenKind::Pname),
            Rule::Word => Some(TokenKind::Word),
            Rule::Less | Rule::Mark => Some(TokenKind::Mark),
            Rule::LongQuotes | Rule::Inexact | Rule::Fraction | Rule::BlankNode | Rule::Outside =>
                Some(TokenKind::Outside),
        }
    }

    /// Whether a token by this rule may stand before these characters.
    pub(crate) fn stands_before(self, rest: &Reader<'_>) -> bool
        ensures { result ≡ may_follow self rest.now }
    {
        match self {
            Rule::Inexact => continues_number(rest),
            Rule::Fraction => rest.starts_digit(),
            _ => true,
        }
    }
}

/// Whether an integer before these characters is the beginning of a decimal or a double.
fn continues_number(rest: &Reader<'_>) -> bool
    ensures { result ≡ continues_number rest.now }
{
    let mut ahead = rest.fork();
    match ahead.next() {
        Some('.') => ahead.starts_digit(),
        Some('e' | 'E') => true,
        _ => false,
    }
}
