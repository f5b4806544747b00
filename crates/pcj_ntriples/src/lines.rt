ghost use Rattle.std.specs.Prelude.{◌≡◌, ◌<◌, ◌∷◌, length};
ghost use Rattle.pcj_ntriples.specs.Lines.{document_lines, after_end};

use memchr::memchr2;

/// The first line of a text, and what follows its end.
pub(crate) fn first_line(text: &[u8]) -> (&[u8], &[u8])
    requires { 0 < length text.now }
    ensures lines { document_lines text.now ≡ result.0.now ∷ document_lines result.1.now }
    ensures shorter { length result.1.now < length text.now }
{
    let at = memchr2(b'\n', b'\r', text).unwrap_or(text.len());
    let (line, end) = text.split_at(at);
    (line, after_end(end))
}

/// What follows the line end at the front.
fn after_end(text: &[u8]) -> &[u8]
    ensures { result.now ≡ after_end text.now }
{
    match text {
        [] => text,
        [b'\r', b'\n', rest @ ..] => rest,
        [_, rest @ ..] => rest,
    }
}
