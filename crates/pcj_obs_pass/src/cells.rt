ghost use Rattle.std.specs.Prelude.{◌≡◌, [], slice_get, IfOk};
ghost use Rattle.std.specs.Option.{unwrap_or};
ghost use Rattle.pcj_obs_pass.specs.Cells.{cell_at, cells_at};

use pcj_term::{Bytes, Items, Memory};
use std::alloc::Global;

/// Copies of the cells that stand at some variables' places.
pub(crate) fn cells_at(
    alloc: Global,
    order: &[Bytes],
    cells: &[Bytes],
    wanted: &[Bytes],
) -> Result<Items<Bytes>, Memory>
    ensures { IfOk result (λ found. found ≡ cells_at order.now cells.now wanted.now) }
{
    let mut found = Items::new(alloc);
    for name in wanted {
        found.push(Bytes::from_slice(alloc, cell_at(order, cells, name))?)?;
    }
    Ok(found)
}

/// The cell that stands at a variable's place, and no byte where the variable has none.
fn cell_at<'a>(order: &[Bytes], cells: &'a [Bytes], name: &Bytes) -> &'a [u8]
    ensures { result.now ≡ cell_at order.now cells.now name.now }
{
    match order.iter().position(|first| first == name) {
        Some(place) => nth(cells, place),
        None => &[],
    }
}

/// The cell at a place, counted from 0, and no byte behind the last.
fn nth(cells: &[Bytes], place: usize) -> &[u8]
    ensures { result.now ≡ unwrap_or (slice_get cells.now place) [] }
{
    match cells.get(place) {
        Some(cell) => cell.as_slice(),
        None => &[],
    }
}
