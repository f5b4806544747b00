ghost use Rattle.std.specs.Prelude.{◌≡◌, ◌++◌, IfOk, OnOk, OnErr};
ghost use Rattle.std.specs.Io.{StartsWith};
ghost use Rattle.pcj_term.specs.Term.{printed, bracketed, node_name, quoted, suffix_of, escaped, escape_of};

use crate::pieces::{cut_plain, is_plain};
use crate::{Bytes, Kind, Memory, Term};
use std::alloc::Global;

/// The printed form of a term: that of N-Triples, with raw UTF-8, and with a blank node named for its load.
pub fn print_term(alloc: Global, term: &Term) -> Result<Bytes, Memory>
    ensures { IfOk result (λ text. text ≡ printed term.now) }
{
    let mut out = Bytes::new(alloc);
    push_term(alloc, &mut out, term)?;
    Ok(out)
}

/// Adds the printed form of a term at the end. After `Memory` the bytes are as they were.
pub fn push_term(alloc: Global, out: &mut Bytes, term: &Term) -> Result<(), Memory>
    ensures ok { OnOk result (out.new ≡ out.old ++ printed term.now) }
    ensures err { OnErr result (out.new ≡ out.old) }
{
    match term {
        Term::Iri(iri) => push_iri(out, iri),
        Term::Blank { load, label } => push_blank(alloc, out, *load, label),
        Term::Literal { text, kind } => push_literal(out, text, kind),
    }
}

fn push_iri(out: &mut Bytes, iri: &Bytes) -> Result<(), Memory>
    ensures ok { OnOk result (out.new ≡ out.old ++ bracketed iri.now) }
    ensures err { OnErr result (out.new ≡ out.old) }
{
    out.extend_from_pieces(&[b"<".as_slice(), iri.as_slice(), b">".as_slice()])
}

fn push_blank(alloc: Global, out: &mut Bytes, load: u64, label: &Bytes) -> Result<(), Memory>
    ensures ok { OnOk result (out.new ≡ out.old ++ node_name load label.now) }
    ensures err { OnErr result (out.new ≡ out.old) }
{
    let name = format!(in alloc; "_:t{load}x")?;
    out.extend_from_pieces(&[name.as_bytes(), label.as_slice()])
}

fn push_literal(out: &mut Bytes, text: &Bytes, kind: &Kind) -> Result<(), Memory>
    ensures ok { OnOk result (out.new ≡ out.old ++ quoted text.now ++ suffix_of kind.now) }
    ensures err { OnErr result (out.new ≡ out.old) }
{
    let len = out.len();
    let pushed = push_in_part(out, text, kind);
    if pushed.is_err() {
        out.truncate(len);
    }
    pushed
}

/// Adds a literal at the end, or a front of it.
fn push_in_part(out: &mut Bytes, text: &Bytes, kind: &Kind) -> Result<(), Memory>
    ensures ok { OnOk result (out.new ≡ out.old ++ quoted text.now ++ suffix_of kind.now) }
    ensures kept { StartsWith out.new out.old }
{
    out.reserve(escaped_len(text.as_slice()).saturating_add(suffix_len(kind)))?;
    out.push(b'"')?;
    push_escaped(out, text.as_slice())?;
    out.push(b'"')?;
    push_suffix(out, kind)
}

/// How many bytes a text takes between its quotes, or the most that can be said.
fn escaped_len(text: &[u8]) -> usize {
    let escapes = text.iter().filter(|byte| !is_plain(**byte)).count();
    text.len().saturating_add(escapes)
}

/// How many bytes a literal takes besides its text, or the most that can be said.
fn suffix_len(kind: &Kind) -> usize {
    match kind {
        Kind::Plain => 2,
        Kind::Lang(tag) => tag.len().saturating_add(3),
        Kind::Typed(datatype) => datatype.len().saturating_add(6),
    }
}

fn push_escaped(out: &mut Bytes, text: &[u8]) -> Result<(), Memory>
    ensures ok { OnOk result (out.new ≡ out.old ++ escaped text.now) }
    ensures kept { StartsWith out.new out.old }
{
    let mut rest = text;
    loop {
        let (plain, end) = cut_plain(rest);
        out.extend_from_slice(plain)?;
        let [byte, following @ ..] = end else {
            return Ok(());
        };
        push_escape(out, *byte)?;
        rest = following;
    }
}

fn push_escape(out: &mut Bytes, byte: u8) -> Result<(), Memory>
    ensures ok { OnOk result (out.new ≡ out.old ++ escape_of byte) }
    ensures err { OnErr result (out.new ≡ out.old) }
{
    match byte {
        b'\t' => out.extend_from_slice(b"\\t"),
        b'\n' => out.extend_from_slice(b"\\n"),
        b'\r' => out.extend_from_slice(b"\\r"),
        b'"' => out.extend_from_slice(b"\\\""),
        b'\\' => out.extend_from_slice(b"\\\\"),
        _ => out.push(byte),
    }
}

fn push_suffix(out: &mut Bytes, kind: &Kind) -> Result<(), Memory>
    ensures ok { OnOk result (out.new ≡ out.old ++ suffix_of kind.now) }
    ensures err { OnErr result (out.new ≡ out.old) }
{
    match kind {
        Kind::Plain => Ok(()),
        Kind::Lang(tag) => out.extend_from_pieces(&[b"@".as_slice(), tag.as_slice()]),
        Kind::Typed(datatype) => {
            out.extend_from_pieces(&[b"^^<".as_slice(), datatype.as_slice(), b">".as_slice()])
        }
    }
}
