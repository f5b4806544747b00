use pcj_case_lines::{Answer, Unanswered};
use pcj_expr::{Compare, Expr, Operand};

/// Adds a condition, each operator before its sides.
pub(crate) fn show_condition(out: &mut Answer, condition: &Expr) -> Result<(), Unanswered> {
    match condition {
        Expr::Or(left, right) => {
            out.word("or")?;
            show_condition(out, left.get())?;
            show_condition(out, right.get())
        }
        Expr::And(left, right) => {
            out.word("and")?;
            show_condition(out, left.get())?;
            show_condition(out, right.get())
        }
        Expr::Not(inner) => {
            out.word("not")?;
            show_condition(out, inner.get())
        }
        Expr::Test(compare, left, right) => {
            out.word(compare_word(*compare))?;
            show_operand(out, left)?;
            show_operand(out, right)
        }
    }
}

fn compare_word(compare: Compare) -> &'static str {
    match compare {
        Compare::Eq => "=",
        Compare::Ne => "!=",
        Compare::Lt => "<",
        Compare::Gt => ">",
        Compare::Le => "<=",
        Compare::Ge => ">=",
    }
}

fn show_operand(out: &mut Answer, operand: &Operand) -> Result<(), Unanswered> {
    match operand {
        Operand::Var(name) => out.marked("?", name.as_slice()),
        Operand::Value(term) => out.term(term),
    }
}
