ghost use Rattle.std.specs.Prelude.{◌≡◌};
ghost use Rattle.pcj_lex.specs.Reading.{first_state, first_in_number, first_in_name, next_state, next_in_text, next_in_iri, next_in_tag, next_in_prefix, next_in_gap, is_end};

use crate::character::{
    is_blank, is_escape_letter, is_iri_character, is_line_end, is_long_mark, is_mark_character,
    is_outside_mark, is_prefix_character, is_quote, is_variable_character, is_variable_start,
    is_word_character,
};
use crate::rule::Rule;
use pcj_term::{is_label_character, is_label_start, is_name_base};

/// How far the characters read are in the form of a rule, or among blanks and comments.
#[derive(Clone, Copy)]
pub(crate) enum State {
    /// Before the first character of a token.
    Start(Rule),
    /// Before this character twice.
    Twice(char),
    /// Before this character.
    Once(char),
    /// Past the last character.
    Over,
    /// Between these quotes.
    InText(char),
    /// After a backslash between these quotes.
    Escape(char),
    /// After `<`.
    InIri,
    /// After a mark's first character.
    InMark(char),
    /// After `?` or `$`.
    VariableSign,
    /// After a character of a variable's name.
    InVariable,
    /// After `@`: whether digits may stand here, and whether this subtag has a character.
    InTag { digits: bool, some: bool },
    /// After a sign.
    Sign,
    /// After a digit.
    Digits,
    /// After a character of a prefix: whether it was a dot.
    Prefix { dot: bool },
    /// After the colon of a prefixed name.
    Colon,
    /// After a character of a local name: whether it was a dot.
    Local { dot: bool },
    /// After a character of a word.
    InWord,
    /// Among blanks and comments.
    Gap,
    /// In a comment.
    Comment,
}

impl State {
    /// The state after a further character, or `None` where the form doesn't go on with it.
    pub(crate) fn next(self, character: char) -> Option<State>
        ensures { result ≡ next_state self character }
    {
        match self {
            State::Start(rule) => first_state(rule, character),
            State::Twice(other) => (character == other).then_some(State::Once(other)),
            State::Once(other) => (character == other).then_some(State::Over),
            State::Over => None,
            State::InText(quote) => next_in_text(quote, character),
            State::Escape(quote) => is_escape_letter(character).then_some(State::InText(quote)),
            State::InIri => next_in_iri(character),
            State::InMark(first) => is_long_mark(first, character).then_some(State::Over),
            State::VariableSign => is_variable_start(character).then_some(State::InVariable),
            State::InVariable => is_variable_character(character).then_some(State::InVariable),
            State::InTag { digits, some } => next_in_tag(digits, some, character),
            State::Sign | State::Digits => character.is_ascii_digit().then_some(State::Digits),
            State::Prefix { dot } => next_in_prefix(dot, character),
            State::Colon => is_label_start(character).then_some(State::Local { dot: false }),
            State::Local { .. } => {
                let dot = character == '.';
                is_label_character(character).then_some(State::Local { dot })
            }
            State::InWord => is_word_character(character).then_some(State::InWord),
            State::Gap => next_in_gap(character),
            State::Comment => Some(if is_line_end(character) {
                State::Gap
            } else {
                State::Comment
            }),
        }
    }

    /// Whether the characters so far are a whole form.
    pub(crate) fn is_end(self) -> bool
        ensures { result ≡ is_end self }
    {
        match self {
            State::Over
            | State::InVariable
            | State::Digits
            | State::Colon
            | State::InWord
            | State::Gap
            | State::Comment => true,
            State::InMark(first) => is_mark_character(first),
            State::InTag { some, .. } => some,
            State::Local { dot } => !dot,
            _ => false,
        }
    }
}

/// The state after the first character of a token.
fn first_state(rule: Rule, character: char) -> Option<State>
    ensures { result ≡ first_state rule character }
{
    match rule {
        Rule::LongQuotes => is_quote(character).then_some(State::Twice(character)),
        Rule::Text => is_quote(character).then_some(State::InText(character)),
        Rule::OpenQuote => is_quote(character).then_some(State::Over),
        Rule::Iri => (character == '<').then_some(State::InIri),
        Rule::Less => (character == '<').then_some(State::InMark(character)),
        Rule::Variable => matches!(character, '?' | '$').then_some(State::VariableSign),
        Rule::Tag => (character == '@').then_some(State::InTag {
            digits: false,
            some: false,
        }),
        Rule::Inexact | Rule::Integer => first_in_number(character),
        Rule::Fraction => (character == '.').then_some(State::Over),
        Rule::BlankNode => (character == '_').then_some(State::Once(':')),
        Rule::Name => first_in_name(character),
        Rule::Word => character.is_ascii_alphabetic().then_some(State::InWord),
        Rule::Mark => Some(State::InMark(character)),
        Rule::Outside => is_outside_mark(character).then_some(State::Over),
    }
}

fn first_in_number(character: char) -> Option<State>
    ensures { result ≡ first_in_number character }
{
    match character {
        '-' | '+' => Some(State::Sign),
        _ => character.is_ascii_digit().then_some(State::Digits),
    }
}

fn first_in_name(character: char) -> Option<State>
    ensures { result ≡ first_in_name character }
{
    if character == ':' {
        Some(State::Colon)
    } else {
        is_name_base(character).then_some(State::Prefix { dot: false })
    }
}

fn next_in_text(quote: char, character: char) -> Option<State>
    ensures { result ≡ next_in_text quote character }
{
    if character == quote {
        Some(State::Over)
    } else if character == '\\' {
        Some(State::Escape(quote))
    } else {
        (!is_line_end(character)).then_some(State::InText(quote))
    }
}

fn next_in_iri(character: char) -> Option<State>
    ensures { result ≡ next_in_iri character }
{
    if character == '>' {
        Some(State::Over)
    } else {
        is_iri_character(character).then_some(State::InIri)
    }
}

fn next_in_tag(digits: bool, some: bool, character: char) -> Option<State>
    ensures { result ≡ next_in_tag digits some character }
{
    if character.is_ascii_alphabetic() || (digits && character.is_ascii_digit()) {
        Some(State::InTag { digits, some: true })
    } else {
        (character == '-' && some).then_some(State::InTag {
            digits: true,
            some: false,
        })
    }
}

fn next_in_prefix(dot: bool, character: char) -> Option<State>
    ensures { result ≡ next_in_prefix dot character }
{
    if character == ':' {
        (!dot).then_some(State::Colon)
    } else {
        let dot = character == '.';
        is_prefix_character(character).then_some(State::Prefix { dot })
    }
}

fn next_in_gap(character: char) -> Option<State>
    ensures { result ≡ next_in_gap character }
{
    if character == '#' {
        Some(State::Comment)
    } else {
        is_blank(character).then_some(State::Gap)
    }
}
