ghost use Rattle.std.specs.Prelude.{◌≡◌, ◌++◌, OnOk, OnErr};
ghost use Rattle.pcj_lines.specs.Lines.{ended, no_query_line, rows_line};

use pcj_term::{Bytes, Memory};
use std::alloc::Global;

/// Adds the line of one row of an answer.
pub fn push_row(out: &mut Bytes, row: &Bytes) -> Result<(), Memory>
    ensures ok { OnOk result (out.new ≡ out.old ++ ended row.now) }
    ensures err { OnErr result (out.new ≡ out.old) }
{
    out.extend_from_pieces(&[row.as_slice(), b"\n".as_slice()])
}

/// Adds `rows K`: how many rows an answer has.
pub fn push_rows(alloc: Global, out: &mut Bytes, count: usize) -> Result<(), Memory>
    ensures ok { OnOk result (out.new ≡ out.old ++ ended (rows_line count)) }
    ensures err { OnErr result (out.new ≡ out.old) }
{
    let line = format!(in alloc; "rows {count}\n")?;
    out.extend_from_slice(line.as_bytes())
}

/// Adds `no query NAME`, for a name that no query has.
pub fn push_no_query(out: &mut Bytes, name: &Bytes) -> Result<(), Memory>
    ensures ok { OnOk result (out.new ≡ out.old ++ ended (no_query_line name.now)) }
    ensures err { OnErr result (out.new ≡ out.old) }
{
    out.extend_from_pieces(&[b"no query ".as_slice(), name.as_slice(), b"\n".as_slice()])
}
