ghost use Rattle.std.specs.Prelude.{◌≡◌};
ghost use Rattle.pcj_grammar.specs.Reading.{next_of, from_others, from_body, from_after_other, from_after_group, from_verb, from_object, from_after_object, from_after_semicolon, from_condition, from_after_test, from_operator, from_operand, from_text, from_iri_name, from_function, from_argument, from_aggregated, from_namespace, from_iri, from_by, from_as, from_var, from_open, from_close, from_brace};

use crate::terminal::Terminal;

/// What is still to come of a part of a query that has begun.
#[derive(Clone, Copy)]
pub(crate) enum Symbol {
    /// A prefixed name without a local name, and an IRI.
    Namespace,
    /// An IRI in its brackets.
    Iri,
    /// The word `BY`, and a variable.
    By,
    /// A variable.
    Variable,
    /// An aggregate after its first bracket.
    Function,
    /// An aggregate after its function.
    OpenArgument,
    /// An aggregate after its second bracket.
    Argument,
    /// An aggregate after `DISTINCT`.
    Aggregated,
    /// An aggregate after what is aggregated.
    CloseArgument,
    /// An aggregate after that and a bracket.
    As,
    /// An aggregate after `AS`.
    Alias,
    /// The last bracket of an aggregate.
    CloseItem,
    /// A group.
    Group,
    /// A group after `UNION`, and what follows it in the group around it.
    UnionGroup,
    /// A group after its first brace, or after a triple and a dot.
    Body,
    /// A group after `FILTER`.
    FilterOpen,
    /// A group after a filter in it.
    AfterOther,
    /// A group after a group in it.
    AfterGroup,
    /// A group after a subject.
    Verb,
    /// A group after a predicate, or after a comma.
    Object,
    /// A group after an object.
    AfterObject,
    /// A group after a semicolon.
    AfterSemicolon,
    /// A group after a string that is a subject.
    TextVerb,
    /// A group after a string that is an object.
    TextObject,
    /// An IRI or a prefixed name.
    IriName,
    /// A condition, and the bracket behind it.
    Condition,
    /// A condition after `!`.
    NotOpen,
    /// A condition after a test.
    AfterTest,
    /// A condition after the first value of a test.
    Operator,
    /// A condition after the operator of a test.
    Operand,
    /// A condition after a string that is the first value of a test.
    TextOperator,
    /// A condition after a string that is the second value of a test.
    TextOperand,
}

/// What is still to come after one more token.
#[derive(Clone, Copy)]
pub(crate) enum Move {
    /// Nothing.
    Done,
    /// This.
    To(Symbol),
    /// The one, and then the other.
    Into(Symbol, Symbol),
}

impl Symbol {
    /// What is still to come after one more token, or `None` where it may not stand there.
    pub(crate) fn next(self, terminal: Terminal) -> Option<Move>
        ensures { result ≡ next_of self terminal }
    {
        match self {
            Symbol::Namespace => from_namespace(terminal),
            Symbol::Iri => from_iri(terminal),
            Symbol::By => from_by(terminal),
            Symbol::Variable => from_var(Move::Done, terminal),
            Symbol::Function => from_function(terminal),
            Symbol::OpenArgument => from_open(Move::To(Symbol::Argument), terminal),
            Symbol::Argument => from_argument(terminal),
            Symbol::Aggregated => from_aggregated(terminal),
            Symbol::CloseArgument => from_close(Move::To(Symbol::As), terminal),
            Symbol::As => from_as(terminal),
            Symbol::Alias => from_var(Move::To(Symbol::CloseItem), terminal),
            Symbol::CloseItem => from_close(Move::Done, terminal),
            Symbol::Group => from_brace(Move::To(Symbol::Body), terminal),
            Symbol::UnionGroup => {
                from_brace(Move::Into(Symbol::Body, Symbol::AfterGroup), terminal)
            }
            Symbol::Body => from_body(terminal),
            Symbol::FilterOpen => {
                from_open(Move::Into(Symbol::Condition, Symbol::AfterOther), terminal)
            }
            Symbol::AfterOther => from_after_other(terminal),
            Symbol::AfterGroup => from_after_group(terminal),
            Symbol::Verb => from_verb(terminal),
            Symbol::Object => from_object(terminal),
            Symbol::AfterObject => from_after_object(terminal),
            Symbol::AfterSemicolon => from_after_semicolon(terminal),
            Symbol::TextVerb => from_text(Symbol::Verb, from_verb(terminal), terminal),
            Symbol::TextObject => {
                from_text(Symbol::AfterObject, from_after_object(terminal), terminal)
            }
            Symbol::IriName => from_iri_name(terminal),
            Symbol::Condition => from_condition(terminal),
            Symbol::NotOpen => {
                from_open(Move::Into(Symbol::Condition, Symbol::AfterTest), terminal)
            }
            Symbol::AfterTest => from_after_test(terminal),
            Symbol::Operator => from_operator(terminal),
            Symbol::Operand => from_operand(terminal),
            Symbol::TextOperator => from_text(Symbol::Operator, from_operator(terminal), terminal),
            Symbol::TextOperand => from_text(
                Symbol::AfterTest,
                from_after_test(terminal),
                terminal,
            ),
        }
    }
}

fn from_others(terminal: Terminal) -> Option<Move>
    ensures { result ≡ from_others terminal }
{
    match terminal {
        Terminal::CloseBrace => Some(Move::Done),
        Terminal::Filter => Some(Move::To(Symbol::FilterOpen)),
        Terminal::OpenBrace => Some(Move::Into(Symbol::Body, Symbol::AfterGroup)),
        _ => None,
    }
}

fn from_body(terminal: Terminal) -> Option<Move>
    ensures { result ≡ from_body terminal }
{
    match terminal {
        Terminal::Var | Terminal::Iri | Terminal::Namespace | Terminal::Name | Terminal::Integer =>
            Some(Move::To(Symbol::Verb)),
        Terminal::Text => Some(Move::To(Symbol::TextVerb)),
        _ => from_others(terminal),
    }
}

fn from_after_other(terminal: Terminal) -> Option<Move>
    ensures { result ≡ from_after_other terminal }
{
    match terminal {
        Terminal::Dot => Some(Move::To(Symbol::Body)),
        _ => from_body(terminal),
    }
}

fn from_after_group(terminal: Terminal) -> Option<Move>
    ensures { result ≡ from_after_group terminal }
{
    match terminal {
        Terminal::Union => Some(Move::To(Symbol::UnionGroup)),
        _ => from_after_other(terminal),
    }
}

fn from_verb(terminal: Terminal) -> Option<Move>
    ensures { result ≡ from_verb terminal }
{
    match terminal {
        Terminal::Var | Terminal::Iri | Terminal::Namespace | Terminal::Name | Terminal::A => Some(
            Move::To(Symbol::Object),
        ),
        _ => None,
    }
}

fn from_object(terminal: Terminal) -> Option<Move>
    ensures { result ≡ from_object terminal }
{
    match terminal {
        Terminal::Var | Terminal::Iri | Terminal::Namespace | Terminal::Name | Terminal::Integer =>
            Some(Move::To(Symbol::AfterObject)),
        Terminal::Text => Some(Move::To(Symbol::TextObject)),
        _ => None,
    }
}

fn from_after_object(terminal: Terminal) -> Option<Move>
    ensures { result ≡ from_after_object terminal }
{
    match terminal {
        Terminal::Comma => Some(Move::To(Symbol::Object)),
        Terminal::Semicolon => Some(Move::To(Symbol::AfterSemicolon)),
        Terminal::Dot => Some(Move::To(Symbol::Body)),
        _ => from_others(terminal),
    }
}

fn from_after_semicolon(terminal: Terminal) -> Option<Move>
    ensures { result ≡ from_after_semicolon terminal }
{
    match terminal {
        Terminal::Var | Terminal::Iri | Terminal::Namespace | Terminal::Name | Terminal::A => Some(
            Move::To(Symbol::Object),
        ),
        Terminal::Semicolon => Some(Move::To(Symbol::AfterSemicolon)),
        Terminal::Dot => Some(Move::To(Symbol::Body)),
        _ => from_others(terminal),
    }
}

fn from_condition(terminal: Terminal) -> Option<Move>
    ensures { result ≡ from_condition terminal }
{
    match terminal {
        Terminal::Not => Some(Move::To(Symbol::NotOpen)),
        Terminal::OpenParen => Some(Move::Into(Symbol::Condition, Symbol::AfterTest)),
        Terminal::Var | Terminal::Iri | Terminal::Namespace | Terminal::Name | Terminal::Integer =>
            Some(Move::To(Symbol::Operator)),
        Terminal::Text => Some(Move::To(Symbol::TextOperator)),
        _ => None,
    }
}

fn from_after_test(terminal: Terminal) -> Option<Move>
    ensures { result ≡ from_after_test terminal }
{
    match terminal {
        Terminal::CloseParen => Some(Move::Done),
        Terminal::And | Terminal::Or => Some(Move::To(Symbol::Condition)),
        _ => None,
    }
}

fn from_operator(terminal: Terminal) -> Option<Move>
    ensures { result ≡ from_operator terminal }
{
    match terminal {
        Terminal::Equal
        | Terminal::Unequal
        | Terminal::Less
        | Terminal::Greater
        | Terminal::AtMost
        | Terminal::AtLeast => Some(Move::To(Symbol::Operand)),
        _ => None,
    }
}

fn from_operand(terminal: Terminal) -> Option<Move>
    ensures { result ≡ from_operand terminal }
{
    match terminal {
        Terminal::Var | Terminal::Iri | Terminal::Namespace | Terminal::Name | Terminal::Integer =>
            Some(Move::To(Symbol::AfterTest)),
        Terminal::Text => Some(Move::To(Symbol::TextOperand)),
        _ => None,
    }
}

fn from_text(symbol: Symbol, plain: Option<Move>, terminal: Terminal) -> Option<Move>
    ensures { result ≡ from_text symbol plain terminal }
{
    match terminal {
        Terminal::Tag => Some(Move::To(symbol)),
        Terminal::Datatype => Some(Move::Into(Symbol::IriName, symbol)),
        _ => plain,
    }
}

fn from_iri_name(terminal: Terminal) -> Option<Move>
    ensures { result ≡ from_iri_name terminal }
{
    match terminal {
        Terminal::Iri | Terminal::Namespace | Terminal::Name => Some(Move::Done),
        _ => None,
    }
}

fn from_function(terminal: Terminal) -> Option<Move>
    ensures { result ≡ from_function terminal }
{
    match terminal {
        Terminal::Count | Terminal::Sum | Terminal::Min | Terminal::Max => Some(Move::To(
            Symbol::OpenArgument,
        )),
        _ => None,
    }
}

fn from_argument(terminal: Terminal) -> Option<Move>
    ensures { result ≡ from_argument terminal }
{
    match terminal {
        Terminal::Distinct => Some(Move::To(Symbol::Aggregated)),
        _ => from_aggregated(terminal),
    }
}

fn from_aggregated(terminal: Terminal) -> Option<Move>
    ensures { result ≡ from_aggregated terminal }
{
    match terminal {
        Terminal::Var | Terminal::Star => Some(Move::To(Symbol::CloseArgument)),
        _ => None,
    }
}

fn from_namespace(terminal: Terminal) -> Option<Move>
    ensures { result ≡ from_namespace terminal }
{
    match terminal {
        Terminal::Namespace => Some(Move::To(Symbol::Iri)),
        _ => None,
    }
}

fn from_iri(terminal: Terminal) -> Option<Move>
    ensures { result ≡ from_iri terminal }
{
    match terminal {
        Terminal::Iri => Some(Move::Done),
        _ => None,
    }
}

fn from_by(terminal: Terminal) -> Option<Move>
    ensures { result ≡ from_by terminal }
{
    match terminal {
        Terminal::By => Some(Move::To(Symbol::Variable)),
        _ => None,
    }
}

fn from_as(terminal: Terminal) -> Option<Move>
    ensures { result ≡ from_as terminal }
{
    match terminal {
        Terminal::As => Some(Move::To(Symbol::Alias)),
        _ => None,
    }
}

fn from_var(after: Move, terminal: Terminal) -> Option<Move>
    ensures { result ≡ from_var after terminal }
{
    match terminal {
        Terminal::Var => Some(after),
        _ => None,
    }
}

fn from_open(after: Move, terminal: Terminal) -> Option<Move>
    ensures { result ≡ from_open after terminal }
{
    match terminal {
        Terminal::OpenParen => Some(after),
        _ => None,
    }
}

fn from_close(after: Move, terminal: Terminal) -> Option<Move>
    ensures { result ≡ from_close after terminal }
{
    match terminal {
        Terminal::CloseParen => Some(after),
        _ => None,
    }
}

fn from_brace(after: Move, terminal: Terminal) -> Option<Move>
    ensures { result ≡ from_brace after terminal }
{
    match terminal {
        Terminal::OpenBrace => Some(after),
        _ => None,
    }
}
