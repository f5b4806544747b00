ghost use Rattle.std.specs.Prelude.{◌≡◌, ◌<◌, ◌^◌, [], length, IfSome, IfNone};
ghost use Rattle.pcj_script.specs.Lines.{lines_given};
ghost use Rattle.pcj_script.specs.Reading.{line_of, IsFirstLine};

use memchr::memchr;

/// A line of a script.
#[derive(Clone, Copy)]
pub(crate) struct Line<'a> {
    /// Its bytes, without its LF.
    bytes: &'a [u8],
    /// Whether it has its LF. The last line's may be missing.
    is_ended: bool,
}

impl<'a> Line<'a> {
    ghost use Rattle.pcj_script.specs.Lines.{said, written};

    /// The line without its LF, and without the CR that stands before that.
    pub(crate) fn said(self) -> &'a [u8]
        ensures { result.now ≡ said (line_of self.entry) }
    {
        if self.is_ended {
            self.bytes.strip_suffix(b"\r").unwrap_or(self.bytes)
        } else {
            self.bytes
        }
    }

    /// How many bytes it has with its LF.
    pub(crate) fn len(self) -> usize
        requires { length self.bytes.now < 2 ^ 63 }
        ensures { result ≡ length (written (line_of self.entry)) }
    {
        self.bytes.len() + usize::from(self.is_ended)
    }
}

/// The first line, and what follows it. A line without its LF is one only where the text has ended.
pub(crate) fn first_line(text: &[u8], ended: bool) -> Option<(Line<'_>, &[u8])>
    ensures some { IfSome result (λ found. IsFirstLine ended text.now (line_of found.0) found.1.now) }
    ensures none { IfNone result (lines_given ended text.now ≡ []) }
{
    match memchr(b'\n', text) {
        Some(at) => {
            let (bytes, _) = text.split_at(at);
            let (_, rest) = text.split_at(at + 1);
            let is_ended = true;
            Some((Line { bytes, is_ended }, rest))
        }
        None if !ended => None,
        None if text.is_empty() => None,
        None => {
            let is_ended = false;
            let line = Line {
                bytes: text,
                is_ended,
            };
            Some((line, b""))
        }
    }
}
