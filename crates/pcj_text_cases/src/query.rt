use pcj_algebra::{Aggregate, Pattern, Query, Shape, Slot, TriplePattern};
use pcj_case_lines::{Answer, Unanswered, size, word};
use pcj_expr::{Compare, Expr, Operand};
use pcj_sparql::{QueryError, QueryKind, QueryRefusal, query_number, read_query};
use pcj_term::{Bytes, TryClone};
use std::alloc::Global;

/// `read_query TEXT`: the query that the text says, or `refused` with the place and the number of the kind. A query is
/// `distinct` and its variables, or `group`, the keys, the function, its variable and the new name; then the pattern, each
/// operator before its parts.
pub(crate) fn read_case(
    alloc: Global,
    out: &mut Answer,
    arguments: &[Bytes],
) -> Result<(), Unanswered> {
    let [text] = arguments else {
        return Err(Unanswered::NoCase);
    };
    read(alloc, out, text.as_slice())
}

/// `read_padded COUNT TEXT`: the same of the text and so many blanks behind it.
pub(crate) fn padded_case(
    alloc: Global,
    out: &mut Answer,
    arguments: &[Bytes],
) -> Result<(), Unanswered> {
    let [count, text] = arguments else {
        return Err(Unanswered::NoCase);
    };
    let mut padded = text.try_clone(alloc)?;
    push_blanks(&mut padded, size(count)?)?;
    read(alloc, out, padded.as_slice())
}

fn push_blanks(text: &mut Bytes, count: usize) -> Result<(), Unanswered> {
    for _ in 0..count {
        text.push(b' ')?;
    }
    Ok(())
}

fn read(alloc: Global, out: &mut Answer, text: &[u8]) -> Result<(), Unanswered> {
    match read_query(alloc, text) {
        Ok(query) => show_query(alloc, out, &query),
        Err(QueryRefusal::Refused(error)) => show_refused(out, error),
        Err(QueryRefusal::Memory) => Err(Unanswered::Memory),
    }
}

fn show_refused(out: &mut Answer, error: QueryError) -> Result<(), Unanswered> {
    out.word("refused")?;
    out.number(error.at)?;
    out.number(u64::from(query_number(error.kind)))
}

fn show_query(alloc: Global, out: &mut Answer, query: &Query) -> Result<(), Unanswered> {
    show_shape(out, &query.shape)?;
    show_pattern(alloc, out, &query.pattern)
}

fn show_shape(out: &mut Answer, shape: &Shape) -> Result<(), Unanswered> {
    match shape {
        Shape::Distinct(names) => {
            out.word("distinct")?;
            show_names(out, names.as_slice())
        }
        Shape::Group {
            keys,
            aggregate,
            var,
            as_name,
        } => {
            out.word("group")?;
            show_names(out, keys.as_slice())?;
            out.word(aggregate_word(*aggregate))?;
            show_variable(out, var.as_slice())?;
            show_variable(out, as_name.as_slice())
        }
    }
}

fn show_names(out: &mut Answer, names: &[Bytes]) -> Result<(), Unanswered> {
    for name in names {
        show_variable(out, name.as_slice())?;
    }
    Ok(())
}

/// Adds a variable by its name.
fn show_variable(out: &mut Answer, name: &[u8]) -> Result<(), Unanswered> {
    out.marked("?", name)
}

fn aggregate_word(aggregate: Aggregate) -> &'static str {
    match aggregate {
        Aggregate::Count => "count",
        Aggregate::Sum => "sum",
        Aggregate::Min => "min",
        Aggregate::Max => "max",
    }
}

fn show_pattern(alloc: Global, out: &mut Answer, pattern: &Pattern) -> Result<(), Unanswered> {
    match pattern {
        Pattern::Triple(triple) => show_triple(out, triple),
        Pattern::Join(left, right) => {
            out.word("join")?;
            show_pattern(alloc, out, left.get())?;
            show_pattern(alloc, out, right.get())
        }
        Pattern::Filter(condition, inner) => {
            out.word("filter")?;
            show_condition(alloc, out, condition)?;
            show_pattern(alloc, out, inner.get())
        }
        Pattern::Union(left, right) => {
            out.word("union")?;
            show_pattern(alloc, out, left.get())?;
            show_pattern(alloc, out, right.get())
        }
    }
}

fn show_triple(out: &mut Answer, triple: &TriplePattern) -> Result<(), Unanswered> {
    out.word("triple")?;
    show_slot(out, &triple.subject)?;
    show_slot(out, &triple.predicate)?;
    show_slot(out, &triple.object)
}

fn show_slot(out: &mut Answer, slot: &Slot) -> Result<(), Unanswered> {
    match slot {
        Slot::Var(name) => show_variable(out, name.as_slice()),
        Slot::Value(term) => out.term(term),
    }
}

fn show_condition(alloc: Global, out: &mut Answer, condition: &Expr) -> Result<(), Unanswered> {
    match condition {
        Expr::Or(left, right) => {
            out.word("or")?;
            show_condition(alloc, out, left.get())?;
            show_condition(alloc, out, right.get())
        }
        Expr::And(left, right) => {
            out.word("and")?;
            show_condition(alloc, out, left.get())?;
            show_condition(alloc, out, right.get())
        }
        Expr::Not(inner) => {
            out.word("not")?;
            show_condition(alloc, out, inner.get())
        }
        Expr::Test(compare, left, right) => {
            out.word(compare_word(*compare))?;
            show_operand(out, left)?;
            show_operand(out, right)
        }
    }
}

fn compare_word(compare: Compare) -> &'static str {
    match compare {
        Compare::Eq => "=",
        Compare::Ne => "!=",
        Compare::Lt => "<",
        Compare::Gt => ">",
        Compare::Le => "<=",
        Compare::Ge => ">=",
    }
}

fn show_operand(out: &mut Answer, operand: &Operand) -> Result<(), Unanswered> {
    match operand {
        Operand::Var(name) => show_variable(out, name.as_slice()),
        Operand::Value(term) => out.term(term),
    }
}

/// `query_number KIND`: the number of the kind.
pub(crate) fn number_case(out: &mut Answer, arguments: &[Bytes]) -> Result<(), Unanswered> {
    let [kind] = arguments else {
        return Err(Unanswered::NoCase);
    };
    let kind = spelled_kind(word(kind)).ok_or(Unanswered::NoCase)?;
    out.number(u64::from(query_number(kind)))
}

fn spelled_kind(word: &str) -> Option<QueryKind> {
    match word {
        "Syntax" => Some(QueryKind::Syntax),
        "OutOfProfile" => Some(QueryKind::OutOfProfile),
        "UnknownPrefix" => Some(QueryKind::UnknownPrefix),
        "UnknownVariable" => Some(QueryKind::UnknownVariable),
        "UnionVariables" => Some(QueryKind::UnionVariables),
        "TooLarge" => Some(QueryKind::TooLarge),
        _ => None,
    }
}
