ghost use Rattle.std.specs.Prelude.{◌≡◌, ◌++◌, OnOk, OnErr};
ghost use Rattle.pcj_lines.specs.Lines.{ended, loaded_line, registered_line, committed_line, refused_line, taken_line};

use pcj_term::{Bytes, Memory};
use std::alloc::Global;

/// Adds `cN load T n triples`: the load's number, and how many distinct triples its document has.
pub fn push_loaded(
    alloc: Global,
    out: &mut Bytes,
    client: u8,
    number: u64,
    count: usize,
) -> Result<(), Memory>
    ensures ok { OnOk result (out.new ≡ out.old ++ ended (loaded_line client number count)) }
    ensures err { OnErr result (out.new ≡ out.old) }
{
    let start = format!(in alloc; "c{client} load {number}")?;
    let end = format!(in alloc; " {count} triples\n")?;
    out.extend_from_pieces(&[start.as_bytes(), end.as_bytes()])
}

/// Adds `cN register T NAME`: the registration's number, and the query's name.
pub fn push_registered(
    alloc: Global,
    out: &mut Bytes,
    client: u8,
    number: u64,
    name: &Bytes,
) -> Result<(), Memory>
    ensures ok { OnOk result (out.new ≡ out.old ++ ended (registered_line client number name.now)) }
    ensures err { OnErr result (out.new ≡ out.old) }
{
    let line = format!(in alloc; "c{client} register {number} ")?;
    out.extend_from_pieces(&[line.as_bytes(), name.as_slice(), b"\n".as_slice()])
}

/// Adds `cN committed U`: the commit timestamp.
pub fn push_committed(alloc: Global, out: &mut Bytes, client: u8, number: u64) -> Result<(), Memory>
    ensures ok { OnOk result (out.new ≡ out.old ++ ended (committed_line client number)) }
    ensures err { OnErr result (out.new ≡ out.old) }
{
    let line = format!(in alloc; "c{client} committed {number}\n")?;
    out.extend_from_slice(line.as_bytes())
}

/// Adds `cN refused PLACE KIND`: where a text is refused, a line of a document or a byte of a query, and the number of
/// the kind of fault.
pub fn push_refused(
    alloc: Global,
    out: &mut Bytes,
    client: u8,
    place: u64,
    kind: u8,
) -> Result<(), Memory>
    ensures ok { OnOk result (out.new ≡ out.old ++ ended (refused_line client place kind)) }
    ensures err { OnErr result (out.new ≡ out.old) }
{
    let line = format!(in alloc; "c{client} refused {place} {kind}\n")?;
    out.extend_from_slice(line.as_bytes())
}

/// Adds `cN taken`, for a registration whose name is taken.
pub fn push_taken(alloc: Global, out: &mut Bytes, client: u8) -> Result<(), Memory>
    ensures ok { OnOk result (out.new ≡ out.old ++ ended (taken_line client)) }
    ensures err { OnErr result (out.new ≡ out.old) }
{
    let line = format!(in alloc; "c{client} taken\n")?;
    out.extend_from_slice(line.as_bytes())
}
