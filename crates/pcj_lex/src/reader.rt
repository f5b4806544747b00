ghost use Rattle.std.specs.Prelude.{◌≡◌, ◌∷◌, [], ℕ, length, encode_utf8_all, slice_get, IfSome, IfNone, Some};
ghost use Rattle.pcj_lex.specs.declared.state.State.TheVariants.{Gap};
ghost use Rattle.pcj_lex.specs.Rules.{begins_digit, token_rules};
ghost use Rattle.pcj_lex.specs.Reading.{next_state, after_longest, after_gap, first_of};

use crate::rule::Rule;
use crate::state::State;
use std::marker::Model;

/// The rules in their order.
const RULES: [Rule; 15] = [
    Rule::LongQuotes,
    Rule::Text,
    Rule::OpenQuote,
    Rule::Iri,
    Rule::Less,
    Rule::Variable,
    Rule::Tag,
    Rule::Inexact,
    Rule::Integer,
    Rule::Fraction,
    Rule::BlankNode,
    Rule::Name,
    Rule::Word,
    Rule::Mark,
    Rule::Outside,
];

/// What is left of a text, character by character.
#[derive(Drop)]
pub(crate) struct Reader<'a> {
    rest: &'a str,
}

impl<'a> Model for Reader<'a> {
    ghost use Rattle.std.specs.Prelude.{List, ℕ, chars};
    ghost use Rattle.std.specs.Str.{IsUtf8};

    ghost Value = { List ℕ };

    ghost view = { λ r. chars r.rest.now };

    ghost invariant = { λ r. IsUtf8 r.rest.now };
}

impl<'a> Reader<'a> {
    ghost use Rattle.std.specs.Prelude.{chars};

    /// All of a text.
    pub(crate) fn new(text: &'a str) -> Reader<'a>
        ensures { result ≡ chars text.now }
    {
        Reader { rest: text }
    }

    /// A reader at the same place.
    pub(crate) fn fork(&self) -> Reader<'a>
        ensures { result ≡ self.now }
    {
        Reader { rest: self.rest }
    }

    /// The bytes that are left.
    pub(crate) fn bytes(&self) -> &'a [u8]
        ensures { result.now ≡ encode_utf8_all self.now }
    {
        self.rest.as_bytes()
    }

    /// The character at the front, which stays there.
    fn peek(&self) -> Option<char>
        ensures { result ≡ slice_get self.now 0 }
    {
        self.rest.chars().next()
    }

    /// Takes the character at the front.
    pub(crate) fn next(&mut self) -> Option<char>
        ensures some { IfSome result (λ c. self.old ≡ c ∷ self.new) }
        ensures none { IfNone result ((self.old ≡ []) × (self.new ≡ [])) }
    {
        let mut chars = self.rest.chars();
        let character = chars.next()?;
        self.rest = chars.as_str();
        Some(character)
    }

    /// Whether a digit stands at the front.
    pub(crate) fn starts_digit(&self) -> bool
        ensures { result ≡ begins_digit self.now }
    {
        matches!(self.peek(), Some('0'..='9'))
    }

    /// Takes the character at the front, and gives the state after it where the form goes on with it.
    #[tactic(auto, unfolding(crate::specs::Reading::after_longest))]
    fn step(&mut self, state: State) -> Option<State>
        ensures some { IfSome result (λ next. (c : ℕ) × (self.old ≡ c ∷ self.new) × (next_state state c ≡ Some next)) }
        ensures none { IfNone result (after_longest state self.old ≡ None) }
    {
        let character = self.next()?;
        state.next(character)
    }

    /// What follows the longest front, of a character at least, that ends in a whole form.
    fn after_longest(&self, start: State) -> Option<Reader<'a>>
        ensures { result ≡ after_longest start self.now }
    {
        let mut ahead = self.fork();
        let mut state = start;
        let mut longest = None;
        while let Some(next) = ahead.step(state) {
            state = next;
            if state.is_end() {
                longest = Some(ahead.fork());
            }
        }
        longest
    }

    /// What follows the blanks and comments at the front.
    pub(crate) fn after_gap(&self) -> Reader<'a>
        ensures { result ≡ after_gap self.now }
    {
        match self.after_longest(State::Gap) {
            Some(rest) => rest,
            None => self.fork(),
        }
    }

    /// The first rule that fits, and what follows its token.
    pub(crate) fn first_rule(&self) -> Option<(Rule, Reader<'a>)>
        ensures { result ≡ first_of token_rules self.now }
    {
        for rule in RULES {
            if let Some(rest) = self.after_longest(State::Start(rule)) {
                if rule.stands_before(&rest) {
                    return Some((rule, rest));
                }
            }
        }
        None
    }
}
