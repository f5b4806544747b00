ghost use Rattle.std.specs.Prelude.{◌≡◌, ℕ, Some, IfOk};
ghost use Rattle.pcj_term.specs.declared.triple.Triple.{Triple};
ghost use Rattle.pcj_encode.specs.declared.key_name.KeyName.TheVariants as named;
ghost use Rattle.pcj_encode.specs.declared.order.Order.{Order};
ghost use Rattle.pcj_encode.specs.Name.{key_of, IsTriple};
ghost use Rattle.pcj_obs_pattern.specs.Reading.{IsKeyOf};

use pcj_encode::{KeyName, read_key, write_key};
use pcj_term::{Bytes, Memory, Triple};
use std::alloc::Global;

/// The key of a pattern's row.
pub(crate) fn pattern_key(alloc: Global, registration: u64, node: u16) -> Result<Bytes, Memory>
    ensures { IfOk result (λ key. key ≡ key_of (named.Pattern registration node)) }
{
    key_of(alloc, KeyName::Pattern { registration, node })
}

/// The key of the row of this name, which is let go.
pub(crate) fn key_of(alloc: Global, name: KeyName) -> Result<Bytes, Memory>
    ensures { IfOk result (λ key. key ≡ key_of name) }
{
    write_key(alloc, &name)
}

/// The numbers of the registration and of the node of the pattern whose row has this key.
pub(crate) fn numbers_of(alloc: Global, key: &[u8]) -> Result<(u64, u16), Memory>
    requires { (registration : ℕ) × (node : ℕ) × IsKeyOf registration node key.now }
    ensures { (registration node : ℕ) → IsKeyOf registration node key.now → IfOk result (λ numbers. numbers ≡ (registration, node)) }
{
    Ok(numbers_named(read_key(alloc, key)?))
}

/// The numbers in the name of a pattern's row.
fn numbers_named(name: Option<KeyName>) -> (u64, u16)
    requires { (registration : ℕ) × (node : ℕ) × (name ≡ Some (named.Pattern registration node)) }
    ensures { (registration node : ℕ) → name ≡ Some (named.Pattern registration node) → result ≡ (registration, node) }
{
    match name {
        Some(KeyName::Pattern { registration, node }) => (registration, node),
        _ => unreachable!(),
    }
}

/// The triple whose row has this key.
pub(crate) fn triple_of(alloc: Global, key: &[u8]) -> Result<Triple, Memory>
    requires { (order : Order) × (triple : Triple) × IsTriple triple × (key.now ≡ key_of (named.Triple order triple)) }
    ensures { (order : Order) (triple : Triple) → IsTriple triple → key.now ≡ key_of (named.Triple order triple) → IfOk result (λ found. found ≡ triple) }
{
    Ok(triple_named(read_key(alloc, key)?))
}

/// The triple in the name of its row.
fn triple_named(name: Option<KeyName>) -> Triple
    requires { (order : Order) × (triple : Triple) × (name ≡ Some (named.Triple order triple)) }
    ensures { (order : Order) (triple : Triple) → name ≡ Some (named.Triple order triple) → result ≡ triple }
{
    match name {
        Some(KeyName::Triple { triple, .. }) => triple,
        _ => unreachable!(),
    }
}
