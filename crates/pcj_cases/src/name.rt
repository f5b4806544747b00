use crate::argument::{list, node, triple};
use crate::key::each;
use pcj_case_lines::{Answer, Unanswered, number, word};
use pcj_encode::{KeyName, Order, TaskName, read_key, triple_key, write_key};
use pcj_rowtables::triple_rows;
use pcj_term::{Bytes, Items, Memory, Triple, TryClone};
use std::alloc::Global;

/// The name that fields spell: its kind, and then what the kind has, terms and cells printed. The last field of a
/// member is its term.
fn spelled_name(alloc: Global, fields: &[Bytes]) -> Result<KeyName, Unanswered> {
    let [kind, fields @ ..] = fields else {
        return Err(Unanswered::NoCase);
    };
    match (word(kind), fields) {
        ("clock", []) => Ok(KeyName::Clock),
        ("triple", [first, terms @ ..]) => Ok(KeyName::Triple {
            order: order(first)?,
            triple: triple(alloc, terms)?,
        }),
        ("name", [name]) => Ok(KeyName::Name(name.try_clone(alloc)?)),
        ("task", fields) => Ok(KeyName::Task(spelled_task(alloc, fields)?)),
        (kind, [registration, fields @ ..]) => {
            registered_name(alloc, kind, number(registration)?, fields)
        }
        _ => Err(Unanswered::NoCase),
    }
}

/// The name that is of a registration, by what its kind has besides.
fn registered_name(
    alloc: Global,
    kind: &str,
    registration: u64,
    fields: &[Bytes],
) -> Result<KeyName, Unanswered> {
    match (kind, fields) {
        ("node", [at, cells @ ..]) => Ok(KeyName::Node {
            registration,
            node: node(at)?,
            cells: list(alloc, cells)?,
        }),
        ("group", cells) => Ok(KeyName::Group {
            registration,
            cells: list(alloc, cells)?,
        }),
        ("member", [cells @ .., term]) => Ok(KeyName::Member {
            registration,
            cells: list(alloc, cells)?,
            term: term.try_clone(alloc)?,
        }),
        ("registration", []) => Ok(KeyName::Registration(registration)),
        ("pattern", [at]) => Ok(KeyName::Pattern {
            registration,
            node: node(at)?,
        }),
        ("export", cells) => Ok(KeyName::Export {
            registration,
            cells: list(alloc, cells)?,
        }),
        _ => Err(Unanswered::NoCase),
    }
}

fn spelled_task(alloc: Global, fields: &[Bytes]) -> Result<TaskName, Unanswered> {
    let [kind, fields @ ..] = fields else {
        return Err(Unanswered::NoCase);
    };
    match (word(kind), fields) {
        ("triple", terms) => Ok(TaskName::Triple(triple(alloc, terms)?)),
        ("backfill", [registration, at]) => Ok(TaskName::Backfill {
            registration: number(registration)?,
            node: node(at)?,
        }),
        ("row", [registration, at, cells @ ..]) => Ok(TaskName::Row {
            registration: number(registration)?,
            node: node(at)?,
            cells: list(alloc, cells)?,
        }),
        ("export", [registration, cells @ ..]) => Ok(TaskName::Export {
            registration: number(registration)?,
            cells: list(alloc, cells)?,
        }),
        _ => Err(Unanswered::NoCase),
    }
}

fn order(field: &Bytes) -> Result<Order, Unanswered> {
    match word(field) {
        "spo" => Ok(Order::Spo),
        "pos" => Ok(Order::Pos),
        "osp" => Ok(Order::Osp),
        _ => Err(Unanswered::NoCase),
    }
}

fn order_word(order: Order) -> &'static str {
    match order {
        Order::Spo => "spo",
        Order::Pos => "pos",
        Order::Osp => "osp",
    }
}

/// Adds the fields that spell a name.
fn spell_name(out: &mut Answer, name: &KeyName) -> Result<(), Unanswered> {
    match name {
        KeyName::Clock => out.word("clock"),
        KeyName::Triple { order, triple } => {
            out.word("triple")?;
            out.word(order_word(*order))?;
            out.triple(triple)
        }
        KeyName::Node {
            registration,
            node,
            cells,
        } => numbered(out, "node", *registration, Some(*node), cells),
        KeyName::Group {
            registration,
            cells,
        } => numbered(out, "group", *registration, None, cells),
        KeyName::Member {
            registration,
            cells,
            term,
        } => {
            numbered(out, "member", *registration, None, cells)?;
            out.bytes(term.as_slice())
        }
        KeyName::Registration(registration) => {
            out.word("registration")?;
            out.number(*registration)
        }
        KeyName::Name(name) => {
            out.word("name")?;
            out.bytes(name.as_slice())
        }
        KeyName::Pattern { registration, node } => {
            without_cells(out, "pattern", *registration, Some(*node))
        }
        KeyName::Task(task) => {
            out.word("task")?;
            spell_task(out, task)
        }
        KeyName::Export {
            registration,
            cells,
        } => numbered(out, "export", *registration, None, cells),
    }
}

/// Adds the fields that spell a task, without the word before them.
pub(crate) fn spell_task(out: &mut Answer, task: &TaskName) -> Result<(), Unanswered> {
    match task {
        TaskName::Triple(triple) => {
            out.word("triple")?;
            out.triple(triple)
        }
        TaskName::Backfill { registration, node } => {
            without_cells(out, "backfill", *registration, Some(*node))
        }
        TaskName::Row {
            registration,
            node,
            cells,
        } => numbered(out, "row", *registration, Some(*node), cells),
        TaskName::Export {
            registration,
            cells,
        } => numbered(out, "export", *registration, None, cells),
    }
}

/// Adds a kind, its numbers and its cells.
fn numbered(
    out: &mut Answer,
    kind: &str,
    registration: u64,
    node: Option<u16>,
    cells: &Items<Bytes>,
) -> Result<(), Unanswered> {
    without_cells(out, kind, registration, node)?;
    each(out, cells.as_slice())
}

/// Adds a kind and its numbers.
fn without_cells(
    out: &mut Answer,
    kind: &str,
    registration: u64,
    node: Option<u16>,
) -> Result<(), Unanswered> {
    out.word(kind)?;
    out.number(registration)?;
    match node {
        Some(node) => out.number(u64::from(node)),
        None => Ok(()),
    }
}

/// `write_key NAME`: the name's key. `copy_name NAME`: the copy.
pub(crate) fn name_case(
    alloc: Global,
    out: &mut Answer,
    call: &str,
    arguments: &[Bytes],
) -> Result<(), Unanswered> {
    let name = spelled_name(alloc, arguments)?;
    answer_name(alloc, out, call, &name)
}

fn answer_name(
    alloc: Global,
    out: &mut Answer,
    call: &str,
    name: &KeyName,
) -> Result<(), Unanswered> {
    match call {
        "write_key" => show_key(out, write_key(alloc, name)),
        "copy_name" => show_copy(alloc, out, name),
        _ => Err(Unanswered::NoCase),
    }
}

fn show_copy(alloc: Global, out: &mut Answer, name: &KeyName) -> Result<(), Unanswered> {
    let copy = name.try_clone(alloc)?;
    spell_name(out, &copy)
}

/// Adds a key that was made.
fn show_key(out: &mut Answer, key: Result<Bytes, Memory>) -> Result<(), Unanswered> {
    let key = key?;
    out.bytes(key.as_slice())
}

/// `read_key KEY`: the name that has the key, or `none`.
pub(crate) fn read_case(
    alloc: Global,
    out: &mut Answer,
    arguments: &[Bytes],
) -> Result<(), Unanswered> {
    let [key] = arguments else {
        return Err(Unanswered::NoCase);
    };
    let name = read_key(alloc, key.as_slice())?;
    show_name(out, name.as_ref())
}

/// Adds a name, or `none`.
fn show_name(out: &mut Answer, name: Option<&KeyName>) -> Result<(), Unanswered> {
    match name {
        Some(name) => spell_name(out, name),
        None => out.word("none"),
    }
}

/// `copy_order ORDER`: the copy.
pub(crate) fn copy_order_case(
    alloc: Global,
    out: &mut Answer,
    arguments: &[Bytes],
) -> Result<(), Unanswered> {
    let [field] = arguments else {
        return Err(Unanswered::NoCase);
    };
    let copy = order(field)?.try_clone(alloc)?;
    out.word(order_word(copy))
}

/// `triple_key ORDER SUBJECT PREDICATE OBJECT`, printed terms: the key of the triple's row in the order.
pub(crate) fn triple_key_case(
    alloc: Global,
    out: &mut Answer,
    arguments: &[Bytes],
) -> Result<(), Unanswered> {
    let [first, terms @ ..] = arguments else {
        return Err(Unanswered::NoCase);
    };
    let order = order(first)?;
    let triple = triple(alloc, terms)?;
    show_key(out, triple_key(alloc, order, &triple))
}

/// Adds the keys of a triple's rows.
pub(crate) fn show_rows(
    alloc: Global,
    out: &mut Answer,
    triple: &Triple,
) -> Result<(), Unanswered> {
    let keys = triple_rows(alloc, triple)?;
    each(out, keys.as_slice())
}
