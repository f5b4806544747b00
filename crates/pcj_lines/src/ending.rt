ghost use Rattle.std.specs.Prelude.{◌≡◌, ◌++◌, OnOk, OnErr};
ghost use Rattle.pcj_lines.specs.Lines.{ended, script_line, spent_line, usage_line};

use pcj_term::{Bytes, Memory};
use std::alloc::Global;

/// Adds `script LINE 0`: the number, from 1, of the script's line that is refused.
pub fn push_refused_line(alloc: Global, out: &mut Bytes, line: u64) -> Result<(), Memory>
    ensures ok { OnOk result (out.new ≡ out.old ++ ended (script_line line)) }
    ensures err { OnErr result (out.new ≡ out.old) }
{
    let line = format!(in alloc; "script {line} 0\n")?;
    out.extend_from_slice(line.as_bytes())
}

/// Adds `spent`: all timestamps below 2^48 were granted.
pub fn push_spent(out: &mut Bytes) -> Result<(), Memory>
    ensures ok { OnOk result (out.new ≡ out.old ++ ended spent_line) }
    ensures err { OnErr result (out.new ≡ out.old) }
{
    out.extend_from_slice(b"spent\n")
}

/// Adds the line that names the commands of the program.
pub fn push_usage(out: &mut Bytes) -> Result<(), Memory>
    ensures ok { OnOk result (out.new ≡ out.old ++ ended usage_line) }
    ensures err { OnErr result (out.new ≡ out.old) }
{
    out.extend_from_slice(b"usage: pcj replay | pcj big SEED N | pcj generate SEED N\n")
}
