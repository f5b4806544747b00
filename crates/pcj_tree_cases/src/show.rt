use crate::condition::show_condition;
use pcj_algebra::{Aggregate, Slot, TriplePattern};
use pcj_case_lines::{Answer, Unanswered};
use pcj_term::Bytes;
use pcj_tree::{Node, NodeKind, Tree};

/// Adds the nodes of a tree, and how many there are.
pub(crate) fn show_tree(out: &mut Answer, tree: &Tree) -> Result<(), Unanswered> {
    for node in tree.nodes.as_slice() {
        show_node(out, node)?;
    }
    out.word("end")
}

/// Adds a node: its kind and what it has, then its parent and its order.
fn show_node(out: &mut Answer, node: &Node) -> Result<(), Unanswered> {
    show_kind(out, &node.kind)?;
    out.word("in")?;
    out.number(u64::from(node.parent))?;
    show_names(out, node.order.as_slice())
}

fn show_names(out: &mut Answer, names: &[Bytes]) -> Result<(), Unanswered> {
    for name in names {
        out.marked("?", name.as_slice())?;
    }
    Ok(())
}

fn show_kind(out: &mut Answer, kind: &NodeKind) -> Result<(), Unanswered> {
    match kind {
        NodeKind::Pattern(of) => show_pattern(out, of),
        NodeKind::Join { left, right } => show_pair(out, "join", *left, *right),
        NodeKind::Filter { child, expr } => {
            show_over(out, "filter", *child)?;
            show_condition(out, expr)
        }
        NodeKind::Union { left, right } => show_pair(out, "union", *left, *right),
        NodeKind::Project { child } => show_over(out, "project", *child),
        NodeKind::Group {
            child,
            aggregate,
            var,
        } => {
            show_over(out, aggregate_word(*aggregate), *child)?;
            out.marked("?", var.as_slice())
        }
    }
}

fn show_pattern(out: &mut Answer, of: &TriplePattern) -> Result<(), Unanswered> {
    out.word("pattern")?;
    show_slot(out, &of.subject)?;
    show_slot(out, &of.predicate)?;
    show_slot(out, &of.object)
}

fn show_slot(out: &mut Answer, slot: &Slot) -> Result<(), Unanswered> {
    match slot {
        Slot::Var(name) => out.marked("?", name.as_slice()),
        Slot::Value(term) => out.term(term),
    }
}

fn show_pair(out: &mut Answer, word: &str, left: u16, right: u16) -> Result<(), Unanswered> {
    show_over(out, word, left)?;
    out.number(u64::from(right))
}

fn show_over(out: &mut Answer, word: &str, child: u16) -> Result<(), Unanswered> {
    out.word(word)?;
    out.number(u64::from(child))
}

fn aggregate_word(aggregate: Aggregate) -> &'static str {
    match aggregate {
        Aggregate::Count => "count",
        Aggregate::Sum => "sum",
        Aggregate::Min => "min",
        Aggregate::Max => "max",
    }
}
