use pcj_algebra::{Aggregate, Pattern, Query, Shape, Slot, TriplePattern};
use pcj_case_lines::{Answer, Unanswered};
use pcj_expr::{Compare, Expr, Mapping, Operand, Truth};
use pcj_term::{Bytes, Term, print_term};
use std::alloc::Global;

/// Adds a query's pattern, its names, and what they are.
pub(crate) fn show_query(alloc: Global, out: &mut Answer, query: &Query) -> Result<(), Unanswered> {
    show_pattern(alloc, out, &query.pattern)?;
    show_shape(out, &query.shape)
}

fn show_shape(out: &mut Answer, shape: &Shape) -> Result<(), Unanswered> {
    match shape {
        Shape::Distinct(names) => {
            show_names(out, names.as_slice())?;
            out.word("distinct")
        }
        Shape::Group {
            keys,
            aggregate,
            var,
            as_name,
        } => {
            show_names(out, keys.as_slice())?;
            show_name(out, var)?;
            show_name(out, as_name)?;
            out.word(aggregate_word(*aggregate))
        }
    }
}

/// Adds variables.
pub(crate) fn show_names(out: &mut Answer, names: &[Bytes]) -> Result<(), Unanswered> {
    for name in names {
        show_name(out, name)?;
    }
    Ok(())
}

fn show_name(out: &mut Answer, name: &Bytes) -> Result<(), Unanswered> {
    out.word("?")?;
    out.go_on(name.as_slice())
}

fn aggregate_word(aggregate: Aggregate) -> &'static str {
    match aggregate {
        Aggregate::Count => "count",
        Aggregate::Sum => "sum",
        Aggregate::Min => "min",
        Aggregate::Max => "max",
    }
}

fn show_pattern(alloc: Global, out: &mut Answer, pattern: &Pattern) -> Result<(), Unanswered> {
    match pattern {
        Pattern::Triple(triple) => show_triple(alloc, out, triple),
        Pattern::Join(left, right) => {
            show_pattern(alloc, out, left.get())?;
            show_pattern(alloc, out, right.get())?;
            out.word("join")
        }
        Pattern::Filter(condition, inner) => {
            show_pattern(alloc, out, inner.get())?;
            show_condition(alloc, out, condition)?;
            out.word("filter")
        }
        Pattern::Union(left, right) => {
            show_pattern(alloc, out, left.get())?;
            show_pattern(alloc, out, right.get())?;
            out.word("union")
        }
    }
}

fn show_triple(alloc: Global, out: &mut Answer, triple: &TriplePattern) -> Result<(), Unanswered> {
    show_slot(alloc, out, &triple.subject)?;
    show_slot(alloc, out, &triple.predicate)?;
    show_slot(alloc, out, &triple.object)?;
    out.word("triple")
}

fn show_slot(alloc: Global, out: &mut Answer, slot: &Slot) -> Result<(), Unanswered> {
    match slot {
        Slot::Var(name) => show_name(out, name),
        Slot::Value(term) => show_term(alloc, out, term),
    }
}

fn show_term(alloc: Global, out: &mut Answer, term: &Term) -> Result<(), Unanswered> {
    let text = print_term(alloc, term)?;
    out.word("")?;
    out.go_on(text.as_slice())
}

fn show_condition(alloc: Global, out: &mut Answer, condition: &Expr) -> Result<(), Unanswered> {
    match condition {
        Expr::Or(left, right) => {
            show_condition(alloc, out, left.get())?;
            show_condition(alloc, out, right.get())?;
            out.word("or")
        }
        Expr::And(left, right) => {
            show_condition(alloc, out, left.get())?;
            show_condition(alloc, out, right.get())?;
            out.word("and")
        }
        Expr::Not(inner) => {
            show_condition(alloc, out, inner.get())?;
            out.word("not")
        }
        Expr::Test(compare, left, right) => {
            show_operand(alloc, out, left)?;
            show_operand(alloc, out, right)?;
            out.word(compare_word(*compare))
        }
    }
}

fn show_operand(alloc: Global, out: &mut Answer, operand: &Operand) -> Result<(), Unanswered> {
    match operand {
        Operand::Var(name) => show_name(out, name),
        Operand::Value(term) => show_term(alloc, out, term),
    }
}

fn compare_word(compare: Compare) -> &'static str {
    match compare {
        Compare::Eq => "=",
        Compare::Ne => "!=",
        Compare::Lt => "<",
        Compare::Gt => ">",
        Compare::Le => "<=",
        Compare::Ge => ">=",
    }
}

/// Adds a mapping's names and terms.
pub(crate) fn show_mapping(
    alloc: Global,
    out: &mut Answer,
    mapping: &Mapping,
) -> Result<(), Unanswered> {
    for binding in mapping.bindings.as_slice() {
        show_name(out, &binding.name)?;
        show_term(alloc, out, &binding.term)?;
        out.word("bind")?;
    }
    out.word("mapping")
}

/// Adds what a condition says of a mapping.
pub(crate) fn show_truth(out: &mut Answer, truth: Truth) -> Result<(), Unanswered> {
    match truth {
        Truth::True => out.word("true"),
        Truth::False => out.word("false"),
        Truth::Error => out.word("error"),
    }
}
