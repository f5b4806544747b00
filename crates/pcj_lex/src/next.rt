ghost use Rattle.std.specs.Prelude.{◌≡◌, ◌≤◌, ◌+◌, length, drop, IfOk, IfErr, IfSome, IfNone};
ghost use Rattle.std.specs.Str.{IsUtf8};
ghost use Rattle.pcj_lex.specs.Token.{IsNext, IsLast, ReadsOn, Refuses};

use crate::reader::Reader;
use crate::token::{LexRefusal, Token};

/// The token that follows the byte `from` of a text, past blanks and comments (SPARQL 1.1 Query, section 19.8):
/// its kind, its place, and the slice of the text that it is.
///
/// `None` where nothing but blanks and comments follows. `At` where other characters follow and no token starts
/// with them. Behind a token the text can be read on. The text is UTF-8 from that byte on; where all of it is, that is a place between two characters.
pub fn next_token<'a>(text: &'a [u8], from: usize) -> Result<Option<Token<'a>>, LexRefusal>
    requires place { from ≤ length text.now }
    requires text { IsUtf8 (drop from text.now) }
    ensures token { IfOk result (λ found. IfSome found (λ t. IsNext text.now from t.kind t.at t.source.now)) }
    ensures behind { IfOk result (λ found. IfSome found (λ t. ReadsOn text.now from (t.at + length t.source.now))) }
    ensures end { IfOk result (λ found. IfNone found (IsLast text.now from)) }
    ensures refused { IfErr result (λ refusal. Refuses text.now from refusal) }
{
    let (_, left) = text.split_at(from);
    let reader = Reader::new(unsafe { str::from_utf8_unchecked(left) }).after_gap();
    let bytes = reader.bytes();
    let at = text.len() - bytes.len();
    if bytes.is_empty() {
        return Ok(None);
    }
    let Some((rule, rest)) = reader.first_rule() else {
        return Err(LexRefusal::At(at));
    };
    let (source, _) = bytes.split_at(bytes.len() - rest.bytes().len());
    match rule.kind() {
        Some(kind) => Ok(Some(Token { kind, at, source })),
        None => Err(LexRefusal::At(at)),
    }
}
