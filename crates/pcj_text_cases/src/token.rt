ghost use Rattle.std.specs.Prelude.{◌≤◌, length, drop};
ghost use Rattle.std.specs.Bool.{OnTrue};
ghost use Rattle.std.specs.Str.{IsUtf8};

use pcj_case_lines::{Answer, Unanswered, size};
use pcj_lex::{LexRefusal, Token, TokenKind, next_token};
use pcj_term::{Bytes, is_utf8};

/// `next_token FROM TEXT`: the kind, the place and the source of the token that follows the byte, `end`, or `none` and
/// the place where no token starts.
pub(crate) fn next_case(out: &mut Answer, arguments: &[Bytes]) -> Result<(), Unanswered> {
    let [from, text] = arguments else {
        return Err(Unanswered::NoCase);
    };
    let from = size(from)?;
    let text = text.as_slice();
    if !is_text_from(text, from) {
        return Err(Unanswered::NoCase);
    }
    match next_token(text, from) {
        Ok(Some(token)) => show(out, token),
        Ok(None) => out.word("end"),
        Err(LexRefusal::At(at)) => {
            out.word("none")?;
            out.number(at as u64)
        }
    }
}

/// Whether the place is in the text, and the text is UTF-8 from there on.
fn is_text_from(text: &[u8], from: usize) -> bool
    ensures place { OnTrue result (from ≤ length text.now) }
    ensures text { OnTrue result (IsUtf8 (drop from text.now)) }
{
    if from > text.len() {
        return false;
    }
    let (_, left) = text.split_at(from);
    is_utf8(left)
}

fn show(out: &mut Answer, token: Token<'_>) -> Result<(), Unanswered> {
    out.word(kind_word(token.kind))?;
    out.number(token.at as u64)?;
    out.bytes(token.source)
}

fn kind_word(kind: TokenKind) -> &'static str {
    match kind {
        TokenKind::Word => "word",
        TokenKind::Var => "var",
        TokenKind::Iri => "iri",
        TokenKind::Pname => "pname",
        TokenKind::Text => "text",
        TokenKind::Tag => "tag",
        TokenKind::Integer => "integer",
        TokenKind::Mark => "mark",
        TokenKind::Outside => "outside",
    }
}
