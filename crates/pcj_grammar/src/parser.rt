ghost use Rattle.std.specs.Prelude.{◌≡◌, ◌∷◌, ◌++◌, [], reverse, OnOk, IfErr, Some, None};
ghost use Rattle.pcj_grammar.specs.declared.fault.Refusal.TheVariants as refusals;
ghost use Rattle.pcj_grammar.specs.Reading.{advance, is_whole, start, symbols_of, inner_of};
ghost use Rattle.pcj_grammar.specs.Parsing.{expected_of, unexpected_at, TakesOn, Stops, StopsUnread};

use crate::clause::{Clause, ClauseMove};
use crate::fault::{Fault, FaultKind, Refusal};
use crate::lexeme::Lexeme;
use crate::symbol::{Move, Symbol};
use std::alloc::Global;

/// How many levels of braces and brackets a text may have.
const LEVEL_LIMIT: usize = 64;

/// What is still to come of a query after some of its tokens.
#[derive(Drop)]
pub(crate) struct Parser {
    /// The parts that have begun, the inmost last.
    parts: Vec<Symbol>,
    /// What is to come outside them.
    clause: Clause,
    /// How many braces and brackets are open.
    depth: usize,
}

impl Parser {
    /// Before the first token.
    pub(crate) fn new(alloc: Global) -> Parser
        ensures expected { expected_of result ≡ start }
        ensures depth { result.depth ≡ 0 }
    {
        Parser {
            parts: Vec::new(alloc),
            clause: Clause::Prologue,
            depth: 0,
        }
    }

    /// Takes a token. After an error the parser isn't used again.
    pub(crate) fn take(&mut self, lexeme: Lexeme) -> Result<(), Refusal>
        ensures ok { OnOk result (TakesOn self.old lexeme self.new) }
        ensures refused { IfErr result (Stops self.old lexeme) }
    {
        self.advance(lexeme)?;
        if lexeme.terminal.opens() {
            if self.depth >= LEVEL_LIMIT {
                return Err(Refusal::Refused(Fault {
                    at: lexeme.at,
                    kind: FaultKind::TooDeep,
                }));
            }
            self.depth += 1;
        } else if lexeme.terminal.closes() {
            self.depth = self.depth.saturating_sub(1);
        }
        Ok(())
    }

    /// Takes a token, wherever it opens a level or closes one.
    fn advance(&mut self, lexeme: Lexeme) -> Result<(), Refusal>
        ensures ok { OnOk result (advance (expected_of self.old) lexeme.terminal ≡ Some (expected_of self.new)) }
        ensures depth { self.new.depth ≡ self.old.depth }
        ensures refused { IfErr result (StopsUnread self.old lexeme) }
    {
        match self.parts.pop() {
            Some(symbol) => match symbol.next(lexeme.terminal) {
                Some(after) => self.push_move(after),
                None => Err(unexpected(lexeme)),
            },
            None => match self.clause.next(lexeme.terminal) {
                Some(after) => {
                    self.clause = after.clause;
                    self.push_inner(after.inner)
                }
                None => Err(unexpected(lexeme)),
            },
        }
    }

    /// Begins the parts of a move.
    fn push_move(&mut self, after: Move) -> Result<(), Refusal>
        ensures ok { OnOk result (reverse self.new.parts.items ≡ symbols_of after ++ reverse self.old.parts.items) }
        ensures clause { self.new.clause ≡ self.old.clause }
        ensures depth { self.new.depth ≡ self.old.depth }
        ensures refused { IfErr result (λ r. r ≡ refusals.Memory) }
    {
        match after {
            Move::Done => Ok(()),
            Move::To(symbol) => self.push(symbol),
            Move::Into(first, second) => {
                self.push(second)?;
                self.push(first)
            }
        }
    }

    fn push_inner(&mut self, inner: Option<Symbol>) -> Result<(), Refusal>
        ensures ok { OnOk result (reverse self.new.parts.items ≡ inner_of inner ++ reverse self.old.parts.items) }
        ensures clause { self.new.clause ≡ self.old.clause }
        ensures depth { self.new.depth ≡ self.old.depth }
        ensures refused { IfErr result (λ r. r ≡ refusals.Memory) }
    {
        match inner {
            None => Ok(()),
            Some(symbol) => self.push(symbol),
        }
    }

    fn push(&mut self, symbol: Symbol) -> Result<(), Refusal>
        ensures ok { OnOk result (reverse self.new.parts.items ≡ symbol ∷ reverse self.old.parts.items) }
        ensures clause { self.new.clause ≡ self.old.clause }
        ensures depth { self.new.depth ≡ self.old.depth }
        ensures refused { IfErr result (λ r. r ≡ refusals.Memory) }
    {
        self.parts.push(symbol)?;
        Ok(())
    }

    /// Whether nothing need follow.
    pub(crate) fn is_whole(&self) -> bool
        ensures { result ≡ is_whole (expected_of self.now) }
    {
        self.parts.is_empty() && self.clause.may_end()
    }
}

/// The refusal of a token that no query has there.
fn unexpected(lexeme: Lexeme) -> Refusal
    ensures { result ≡ unexpected_at lexeme }
{
    Refusal::Refused(Fault {
        at: lexeme.at,
        kind: lexeme.terminal.fault(),
    })
}
