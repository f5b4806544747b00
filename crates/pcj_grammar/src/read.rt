ghost use Rattle.std.specs.Prelude.{◌≡◌, ◌≤◌, length, drop, IfOk, IfErr, IfSome, IfNone};
ghost use Rattle.std.specs.Str.{IsUtf8};
ghost use Rattle.pcj_lex.specs.Token.{IsLast, ReadsOn};
ghost use Rattle.pcj_grammar.specs.Text.{IsLexeme, IsOfGrammar, Refuses};
ghost use Rattle.pcj_grammar.specs.Parsing.{IsNoLexeme};

use crate::fault::{Fault, FaultKind, Refusal};
use crate::lexeme::Lexeme;
use crate::parser::Parser;
use crate::terminal::Terminal;
use pcj_lex::{LexRefusal, next_token};
use pcj_term::Items;
use std::alloc::Global;

/// The tokens of a query text of the profile's grammar (SPARQL 1.1 Query, section 19.8), or the first place where it
/// departs from it.
///
/// A text is refused at the first token that no text of the grammar has there: as `OutOfProfile` where that is a word or a
/// token that the profile leaves out, and else as `Syntax`. It is refused as `Syntax` where no token starts, and at its end
/// where it ends too early. A `{` or `(` that opens level 65, and that a text of the grammar may have there, is refused as
/// `TooDeep`. `Memory` can come at any token, before a faulty one too.
pub fn read_grammar(alloc: Global, text: &[u8]) -> Result<Items<Lexeme>, Refusal>
    requires { IsUtf8 text.now }
    ensures lexemes { IfOk result (λ lexemes. IsOfGrammar text.now lexemes) }
    ensures refused { IfErr result (Refuses text.now) }
{
    let mut parser = Parser::new(alloc);
    let mut lexemes = Items::new(alloc);
    let mut from = 0;
    while let Some(lexeme) = next_lexeme(text, from)? {
        parser.take(lexeme)?;
        lexemes.push(lexeme)?;
        from = lexeme.end;
    }
    if parser.is_whole() {
        Ok(lexemes)
    } else {
        Err(Refusal::Refused(Fault {
            at: text.len(),
            kind: FaultKind::Syntax,
        }))
    }
}

/// The token that follows a place, behind which the text can be read on.
fn next_lexeme(text: &[u8], from: usize) -> Result<Option<Lexeme>, Refusal>
    requires place { from ≤ length text.now }
    requires text { IsUtf8 (drop from text.now) }
    ensures lexeme { IfOk result (λ found. IfSome found (IsLexeme text.now from)) }
    ensures behind { IfOk result (λ found. IfSome found (λ lexeme. ReadsOn text.now from lexeme.end)) }
    ensures end { IfOk result (λ found. IfNone found (IsLast text.now from)) }
    ensures refused { IfErr result (IsNoLexeme text.now from) }
{
    match next_token(text, from) {
        Ok(Some(token)) => Ok(Some(Lexeme {
            terminal: Terminal::of(token.kind, token.source),
            at: token.at,
            end: token.at + token.source.len(),
        })),
        Ok(None) => Ok(None),
        Err(LexRefusal::At(at)) => Err(Refusal::Refused(Fault {
            at,
            kind: FaultKind::Syntax,
        })),
    }
}
