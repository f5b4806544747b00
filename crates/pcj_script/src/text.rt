ghost use Rattle.pcj_script.specs.Lines.{lines_given};
ghost use Rattle.pcj_script.specs.TextReading.{HasTextEnd, IsWithin};

use crate::line::first_line;

/// How many bytes a text may have.
const TEXT_LIMIT: usize = 16_777_216;

/// Where a text ends.
#[derive(Clone, Copy)]
pub(crate) enum TextEnd<'a> {
    /// With a line `end`, which is the last of so many bytes and lines.
    Ended {
        text: &'a [u8],
        used: usize,
        lines: u64,
    },
    /// It passes its limit, on the line behind so many others.
    TooLong {
        before: u64,
    },
    /// It has no end yet.
    Open,
}

/// Where the text that stands at the front ends.
pub(crate) fn read_text(bytes: &[u8], ended: bool) -> TextEnd<'_>
    ensures end { HasTextEnd ended bytes.now result }
    ensures within { IsWithin bytes.now result }
{
    let mut size = 0;
    let mut lines = 0;
    let mut rest = bytes;
    while let Some((line, following)) = first_line(rest, ended) {
        if line.said() == b"end".as_slice() {
            let (text, _) = bytes.split_at(size);
            return TextEnd::Ended {
                text,
                used: size + line.len(),
                lines: lines + 1,
            };
        }
        size += line.len();
        if size > TEXT_LIMIT {
            return TextEnd::TooLong { before: lines };
        }
        lines += 1;
        rest = following;
    }
    TextEnd::Open
}
