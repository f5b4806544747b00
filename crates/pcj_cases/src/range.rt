use crate::argument::node;
use pcj_case_lines::{Answer, Unanswered, number};
use pcj_encode::{
    KeyRange, export_range, group_range, node_range, pattern_range, registration_range, task_range,
    triple_range,
};
use pcj_term::{Bytes, TryClone};
use std::alloc::Global;

/// Answers the call of a range: what its keys are above, and what they are below.
pub(crate) fn range_case(
    alloc: Global,
    out: &mut Answer,
    call: &str,
    arguments: &[Bytes],
) -> Result<(), Unanswered> {
    let range = match arguments {
        [] => whole_range(alloc, call)?,
        [registration] => registered_range(alloc, call, number(registration)?)?,
        [registration, at, cells @ ..] if call == "node_range" => {
            node_range(alloc, number(registration)?, node(at)?, cells)?
        }
        _ => return Err(Unanswered::NoCase),
    };
    show(out, &range)
}

fn show(out: &mut Answer, range: &KeyRange) -> Result<(), Unanswered> {
    out.bytes(range.after.as_slice())?;
    out.bytes(range.end.as_slice())
}

fn whole_range(alloc: Global, call: &str) -> Result<KeyRange, Unanswered> {
    let range = match call {
        "pattern_range" => pattern_range(alloc),
        "registration_range" => registration_range(alloc),
        "task_range" => task_range(alloc),
        "triple_range" => triple_range(alloc),
        _ => return Err(Unanswered::NoCase),
    };
    Ok(range?)
}

fn registered_range(alloc: Global, call: &str, registration: u64) -> Result<KeyRange, Unanswered> {
    let range = match call {
        "export_range" => export_range(alloc, registration),
        "group_range" => group_range(alloc, registration),
        _ => return Err(Unanswered::NoCase),
    };
    Ok(range?)
}

/// `copy_range AFTER END`: the copy.
pub(crate) fn copy_case(
    alloc: Global,
    out: &mut Answer,
    arguments: &[Bytes],
) -> Result<(), Unanswered> {
    let [after, end] = arguments else {
        return Err(Unanswered::NoCase);
    };
    let range = KeyRange {
        after: after.try_clone(alloc)?,
        end: end.try_clone(alloc)?,
    };
    show_copy(alloc, out, &range)
}

fn show_copy(alloc: Global, out: &mut Answer, range: &KeyRange) -> Result<(), Unanswered> {
    let copy = range.try_clone(alloc)?;
    show(out, &copy)
}
