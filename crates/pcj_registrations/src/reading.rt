ghost use Rattle.std.specs.Prelude.{◌≡◌, ◌≢◌, ℕ, Some, IfOk, IfSome, IfNone};
ghost use Rattle.pcj_encode.specs.declared.key_name.KeyName.TheVariants as row;
ghost use Rattle.pcj_registrations.specs.Reading.{ReadsNumber, ReadsParts, ReadsRow, ReadsValue};

use crate::Registration;
use pcj_encode::{KeyName, read_key};
use pcj_key::split_parts;
use pcj_term::{Bytes, Memory, TryClone};
use pcj_tree::read_tree;
use std::alloc::Global;

/// The registration that a row's key and a value of it say, or `None` where they say none.
pub(crate) fn read_row(
    alloc: Global,
    key: &[u8],
    value: &[u8],
) -> Result<Option<Registration>, Memory>
    ensures { IfOk result (λ found. ReadsRow key.now value.now found) }
{
    match number_of(alloc, key)? {
        Some(number) => read_value(alloc, number, value),
        None => Ok(None),
    }
}

/// The number of the registration whose row this key is.
fn number_of(alloc: Global, key: &[u8]) -> Result<Option<u64>, Memory>
    ensures { IfOk result (λ number. ReadsNumber key.now number) }
{
    Ok(number_named(read_key(alloc, key)?))
}

/// The number of the registration whose row this name is.
fn number_named(name: Option<KeyName>) -> Option<u64>
    ensures some { IfSome result (λ number. name ≡ Some (row.Registration number)) }
    ensures none { IfNone result ((number : ℕ) → name ≢ Some (row.Registration number)) }
{
    match name {
        Some(KeyName::Registration(number)) => Some(number),
        _ => None,
    }
}

/// The registration with this number whose value this is.
fn read_value(alloc: Global, number: u64, value: &[u8]) -> Result<Option<Registration>, Memory>
    ensures { IfOk result (λ found. ReadsValue number value.now found) }
{
    match split_parts(alloc, value)? {
        Some(parts) => read_parts(alloc, number, parts.as_slice()),
        None => Ok(None),
    }
}

/// The registration with this number whose name and stored tree these are.
fn read_parts(alloc: Global, number: u64, parts: &[Bytes]) -> Result<Option<Registration>, Memory>
    ensures { IfOk result (λ found. ReadsParts number parts.now found) }
{
    let [name, stored] = parts else {
        return Ok(None);
    };
    match read_tree(alloc, stored.as_slice())? {
        Some(tree) => Ok(Some(Registration {
            name: name.try_clone(alloc)?,
            number,
            tree,
        })),
        None => Ok(None),
    }
}
