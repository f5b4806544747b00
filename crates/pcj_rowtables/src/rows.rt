ghost use Rattle.std.specs.Prelude.{◌≡◌, IfOk};
ghost use Rattle.pcj_rowtables.specs.Rows.{triple_keys};

use pcj_encode::{Order, triple_key};
use pcj_term::{Bytes, Items, Memory, Triple};
use std::alloc::Global;

/// The keys of a triple's rows, in the orders by subject, by predicate and by object (Rya, 2012): SPO, POS, OSP.
pub fn triple_rows(alloc: Global, triple: &Triple) -> Result<Items<Bytes>, Memory>
    ensures { IfOk result (λ keys. keys ≡ triple_keys triple.now) }
{
    let mut keys = Items::new(alloc);
    keys.push(triple_key(alloc, Order::Spo, triple)?)?;
    keys.push(triple_key(alloc, Order::Pos, triple)?)?;
    keys.push(triple_key(alloc, Order::Osp, triple)?)?;
    Ok(keys)
}
