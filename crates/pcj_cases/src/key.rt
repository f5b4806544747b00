use pcj_case_lines::{Answer, Unanswered};
use pcj_key::{join_parts, prefix_end, split_parts};
use pcj_term::Bytes;
use std::alloc::Global;

/// `join_parts PARTS`: their key.
pub(crate) fn join_case(
    alloc: Global,
    out: &mut Answer,
    arguments: &[Bytes],
) -> Result<(), Unanswered> {
    let key = join_parts(alloc, arguments)?;
    out.bytes(key.as_slice())
}

/// `split_parts KEY`: `parts` and the key's parts, or `none`.
pub(crate) fn split_case(
    alloc: Global,
    out: &mut Answer,
    arguments: &[Bytes],
) -> Result<(), Unanswered> {
    let [key] = arguments else {
        return Err(Unanswered::NoCase);
    };
    match split_parts(alloc, key.as_slice())? {
        Some(parts) => {
            out.word("parts")?;
            each(out, parts.as_slice())
        }
        None => out.word("none"),
    }
}

/// Adds a field for each of these.
pub(crate) fn each(out: &mut Answer, list: &[Bytes]) -> Result<(), Unanswered> {
    for bytes in list {
        out.bytes(bytes.as_slice())?;
    }
    Ok(())
}

/// `prefix_end PREFIX`, a prefix of one byte at least: the end of its range.
pub(crate) fn prefix_case(
    alloc: Global,
    out: &mut Answer,
    arguments: &[Bytes],
) -> Result<(), Unanswered> {
    let [prefix] = arguments else {
        return Err(Unanswered::NoCase);
    };
    let prefix = prefix.as_slice();
    if prefix.is_empty() {
        return Err(Unanswered::NoCase);
    }
    let end = prefix_end(alloc, prefix)?;
    out.bytes(end.as_slice())
}
