ghost use Rattle.std.specs.Prelude.{◌≡◌, ◌++◌, IfOk, OnOk, OnErr};
ghost use Rattle.pcj_encode.specs.declared.order.Order.TheVariants.{Spo};
ghost use Rattle.pcj_rowtables.specs.Rows.{triple_key};
ghost use Rattle.pcj_rows.specs.Plans.{put_mark, triple_writes};
ghost use Rattle.pcj_client.specs.Keys.{IsPartsOf};

use crate::triple_parts::TripleParts;
use pcj_table::Write;
use pcj_term::{Bytes, Memory, Triple};
use std::alloc::Global;

/// Adds the writes of a triple's rows and of its task, and gives the key of its row by subject. After `Memory` none is added.
pub(crate) fn add_writes(
    alloc: Global,
    triple: &Triple,
    writes: &mut Vec<Write>,
) -> Result<Bytes, Memory>
    ensures key { IfOk result (λ key. key ≡ triple_key Spo triple.now) }
    ensures added { OnOk result (writes.new.items ≡ writes.old.items ++ triple_writes triple.now) }
    ensures same { OnErr result (writes.new.items ≡ writes.old.items) }
{
    let parts = TripleParts::of(alloc, triple)?;
    let key = parts.spo(alloc)?;
    let mut more = writes_of(alloc, &parts, triple)?;
    writes.append(&mut more)?;
    Ok(key)
}

/// The writes of a triple's rows and of its task.
fn writes_of(alloc: Global, parts: &TripleParts, triple: &Triple) -> Result<Vec<Write>, Memory>
    requires { IsPartsOf parts.now triple.now }
    ensures { IfOk result (λ writes. writes.items ≡ triple_writes triple.now) }
{
    let mut writes = Vec::with_capacity(alloc, 4)?;
    writes.push(put_mark(alloc, parts.spo(alloc)?))?;
    writes.push(put_mark(alloc, parts.pos(alloc)?))?;
    writes.push(put_mark(alloc, parts.osp(alloc)?))?;
    writes.push(put_mark(alloc, parts.task(alloc)?))?;
    Ok(writes)
}

/// A write of the empty value.
pub(crate) fn put_mark(alloc: Global, key: Bytes) -> Write
    ensures { result ≡ put_mark key }
{
    Write {
        key,
        value: Some(Bytes::new(alloc)),
    }
}
