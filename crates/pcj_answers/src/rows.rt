ghost use Rattle.std.specs.Prelude.{◌≡◌, ◌++◌, map, IfOk, OnOk};
ghost use Rattle.std.specs.Option.{option_copied};
ghost use Rattle.pcj_answers.specs.Rows.{terms_of, cell, row_line};

use pcj_expr::Mapping;
use pcj_term::{Bytes, Memory, Term, push_term};
use std::alloc::Global;

/// What the mapping gives the names.
pub(crate) fn terms_of<'m>(
    alloc: Global,
    names: &[Bytes],
    mapping: &'m Mapping,
) -> Result<Vec<Option<&'m Term>>, Memory>
    ensures { IfOk result (λ row. map (λ term. option_copied term) row.items ≡ terms_of names.now mapping.now) }
{
    let mut row = Vec::with_capacity(alloc, names.len())?;
    for name in names {
        row.push(mapping.get(name))?;
    }
    Ok(row)
}

/// The line of a row: its cells, with a TAB between two of them.
pub(crate) fn row_line(alloc: Global, row: &[Option<&Term>]) -> Result<Bytes, Memory>
    ensures { IfOk result (λ line. line ≡ row_line (map (λ term. option_copied term) row.now)) }
{
    let mut line = Bytes::new(alloc);
    for (at, term) in row.iter().enumerate() {
        if at > 0 {
            line.push(b'\t')?;
        }
        push_cell(alloc, &mut line, *term)?;
    }
    Ok(line)
}

fn push_cell(alloc: Global, line: &mut Bytes, term: Option<&Term>) -> Result<(), Memory>
    ensures { OnOk result (line.new ≡ line.old ++ cell (option_copied term.entry)) }
{
    match term {
        None => Ok(()),
        Some(term) => push_term(alloc, line, term),
    }
}
