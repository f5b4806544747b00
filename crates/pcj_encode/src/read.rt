ghost use Rattle.std.specs.Prelude.{◌≡◌, IfOk};
ghost use Rattle.pcj_encode.specs.Read.{ReadsKey};
ghost use Rattle.pcj_encode.specs.Reading.{clock_of, triple_row_of, node_row_of, group_of, member_of, member_with, registration_row_of, name_row_of, pattern_of, export_of, row_of, name_of};

use crate::fields::{node_cells, numbers_first, registered_cells, registration_first, triple_of};
use crate::read_task::task_of;
use crate::tag::Tag;
use crate::{KeyName, Order};
use pcj_key::split_parts;
use pcj_term::{Bytes, Items, Memory, TryClone};
use std::alloc::Global;

/// The valid name whose key these bytes are, or `None` where they are that of no valid name.
pub fn read_key(alloc: Global, key: &[u8]) -> Result<Option<KeyName>, Memory>
    ensures { IfOk result (λ found. ReadsKey key.now found) }
{
    match split_parts(alloc, key)? {
        Some(parts) => name_of(alloc, parts.as_slice()),
        None => Ok(None),
    }
}

fn name_of(alloc: Global, parts: &[Bytes]) -> Result<Option<KeyName>, Memory>
    ensures { IfOk result (λ found. found ≡ name_of parts.now) }
{
    let [part, fields @ ..] = parts else {
        return Ok(None);
    };
    match Tag::read(part.as_slice()) {
        Some(tag) => row_of(alloc, tag, fields),
        None => Ok(None),
    }
}

fn row_of(alloc: Global, tag: Tag, fields: &[Bytes]) -> Result<Option<KeyName>, Memory>
    ensures { IfOk result (λ found. found ≡ row_of tag fields.now) }
{
    match tag {
        Tag::Clock => Ok(clock_of(fields)),
        Tag::Spo => triple_row_of(alloc, Order::Spo, fields),
        Tag::Pos => triple_row_of(alloc, Order::Pos, fields),
        Tag::Osp => triple_row_of(alloc, Order::Osp, fields),
        Tag::Node => node_row_of(alloc, fields),
        Tag::Group => group_of(alloc, fields),
        Tag::Member => member_of(alloc, fields),
        Tag::Registration => Ok(registration_row_of(fields)),
        Tag::Name => name_row_of(alloc, fields),
        Tag::Pattern => Ok(pattern_of(fields)),
        Tag::Task => Ok(task_of(alloc, fields)?.map(KeyName::Task)),
        Tag::Export => export_of(alloc, fields),
    }
}

fn clock_of(fields: &[Bytes]) -> Option<KeyName>
    ensures { result ≡ clock_of fields.now }
{
    match fields {
        [] => Some(KeyName::Clock),
        _ => None,
    }
}

fn triple_row_of(alloc: Global, order: Order, fields: &[Bytes]) -> Result<Option<KeyName>, Memory>
    ensures { IfOk result (λ found. found ≡ triple_row_of order fields.now) }
{
    match triple_of(alloc, order, fields)? {
        Some(triple) => Ok(Some(KeyName::Triple { order, triple })),
        None => Ok(None),
    }
}

fn node_row_of(alloc: Global, fields: &[Bytes]) -> Result<Option<KeyName>, Memory>
    ensures { IfOk result (λ found. found ≡ node_row_of fields.now) }
{
    match node_cells(alloc, fields)? {
        Some((registration, node, cells)) => Ok(Some(KeyName::Node {
            registration,
            node,
            cells,
        })),
        None => Ok(None),
    }
}

fn group_of(alloc: Global, fields: &[Bytes]) -> Result<Option<KeyName>, Memory>
    ensures { IfOk result (λ found. found ≡ group_of fields.now) }
{
    match registered_cells(alloc, fields)? {
        Some((registration, cells)) if !cells.is_empty() => Ok(Some(KeyName::Group {
            registration,
            cells,
        })),
        _ => Ok(None),
    }
}

fn member_of(alloc: Global, fields: &[Bytes]) -> Result<Option<KeyName>, Memory>
    ensures { IfOk result (λ found. found ≡ member_of fields.now) }
{
    match registered_cells(alloc, fields)? {
        Some((registration, cells)) => Ok(member_with(registration, cells)),
        None => Ok(None),
    }
}

/// The member whose term is the last cell.
fn member_with(registration: u64, cells: Items<Bytes>) -> Option<KeyName>
    ensures { result ≡ member_with registration cells }
{
    let mut cells = cells.into_vec();
    let term = cells.pop()?;
    Some(KeyName::Member {
        registration,
        cells: Items::from_vec(cells),
        term,
    })
}

fn registration_row_of(fields: &[Bytes]) -> Option<KeyName>
    ensures { result ≡ registration_row_of fields.now }
{
    match registration_first(fields) {
        Some((registration, [])) => Some(KeyName::Registration(registration)),
        _ => None,
    }
}

fn name_row_of(alloc: Global, fields: &[Bytes]) -> Result<Option<KeyName>, Memory>
    ensures { IfOk result (λ found. found ≡ name_row_of fields.now) }
{
    match fields {
        [name] => Ok(Some(KeyName::Name(name.try_clone(alloc)?))),
        _ => Ok(None),
    }
}

fn pattern_of(fields: &[Bytes]) -> Option<KeyName>
    ensures { result ≡ pattern_of fields.now }
{
    match numbers_first(fields) {
        Some((registration, node, [])) => Some(KeyName::Pattern { registration, node }),
        _ => None,
    }
}

fn export_of(alloc: Global, fields: &[Bytes]) -> Result<Option<KeyName>, Memory>
    ensures { IfOk result (λ found. found ≡ export_of fields.now) }
{
    match registered_cells(alloc, fields)? {
        Some((registration, cells)) => Ok(Some(KeyName::Export {
            registration,
            cells,
        })),
        None => Ok(None),
    }
}
