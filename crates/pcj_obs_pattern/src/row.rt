ghost use Rattle.std.specs.Prelude.{◌≡◌, ℕ, List, Some, IfOk, IsSome};
ghost use Rattle.pcj_algebra.specs.declared.triple_pattern.TriplePattern.{TriplePattern};
ghost use Rattle.pcj_tree.specs.Reading.{slot_of};
ghost use Rattle.pcj_obs_pattern.specs.Rows.{IsPatternRow};
ghost use Rattle.pcj_obs_pattern.specs.Reading.{ArePartsOf, IsValueOf, row_of};

use crate::fields::slot_of;
use crate::keys::numbers_of;
use pcj_algebra::TriplePattern;
use pcj_key::split_parts;
use pcj_term::{Bytes, Items, Memory, TryClone};
use std::alloc::Global;

/// A pattern of a registered query, as its row has it.
#[derive(Drop)]
pub(crate) struct PatternRow {
    /// The number of its registration.
    pub(crate) registration: u64,
    /// Its node in the registration's tree.
    pub(crate) node: u16,
    pub(crate) pattern: TriplePattern,
    /// The variables, as they stand in the rows of its node.
    pub(crate) order: Items<Bytes>,
}

/// The pattern whose row has this key and this value.
pub(crate) fn read_row(alloc: Global, key: &[u8], value: &[u8]) -> Result<PatternRow, Memory>
    requires { (registration : ℕ) × (node : ℕ) × (of : TriplePattern) × (order : List (List ℕ)) × IsPatternRow registration node of order key.now value.now }
    ensures { (registration node : ℕ) (of : TriplePattern) (order : List (List ℕ)) → IsPatternRow registration node of order key.now value.now → IfOk result (λ found. found ≡ row_of registration node of order) }
{
    let (registration, node) = numbers_of(alloc, key)?;
    read_value(alloc, registration, node, value)
}

/// The pattern with these numbers whose row has this value.
pub(crate) fn read_value(
    alloc: Global,
    registration: u64,
    node: u16,
    value: &[u8],
) -> Result<PatternRow, Memory>
    requires { (of : TriplePattern) × (order : List (List ℕ)) × IsValueOf of order value.now }
    ensures { (of : TriplePattern) (order : List (List ℕ)) → IsValueOf of order value.now → IfOk result (λ found. found ≡ row_of registration node of order) }
{
    match split_parts(alloc, value)? {
        Some(parts) => read_parts(alloc, registration, node, parts.as_slice()),
        None => unreachable!(),
    }
}

/// The pattern with these numbers whose row has a value of these parts.
fn read_parts(
    alloc: Global,
    registration: u64,
    node: u16,
    parts: &[Bytes],
) -> Result<PatternRow, Memory>
    requires { (of : TriplePattern) × (order : List (List ℕ)) × ArePartsOf of order parts.now }
    ensures { (of : TriplePattern) (order : List (List ℕ)) → ArePartsOf of order parts.now → IfOk result (λ found. found ≡ row_of registration node of order) }
{
    let [subject, predicate, object, order @ ..] = parts else {
        unreachable!()
    };
    Ok(PatternRow {
        registration,
        node,
        pattern: pattern_of(
            alloc,
            subject.as_slice(),
            predicate.as_slice(),
            object.as_slice(),
        )?,
        order: copy_of(alloc, order)?,
    })
}

/// The pattern of three slots.
fn pattern_of(
    alloc: Global,
    subject: &[u8],
    predicate: &[u8],
    object: &[u8],
) -> Result<TriplePattern, Memory>
    requires subject { IsSome (slot_of subject.now) }
    requires predicate { IsSome (slot_of predicate.now) }
    requires object { IsSome (slot_of object.now) }
    ensures subject { IfOk result (λ of. slot_of subject.now ≡ Some of.subject) }
    ensures predicate { IfOk result (λ of. slot_of predicate.now ≡ Some of.predicate) }
    ensures object { IfOk result (λ of. slot_of object.now ≡ Some of.object) }
{
    Ok(TriplePattern {
        subject: slot_of(alloc, subject)?,
        predicate: slot_of(alloc, predicate)?,
        object: slot_of(alloc, object)?,
    })
}

fn copy_of(alloc: Global, names: &[Bytes]) -> Result<Items<Bytes>, Memory>
    ensures { IfOk result (λ copy. copy ≡ names.now) }
{
    let mut copy = Items::new(alloc);
    for name in names {
        copy.push(name.try_clone(alloc)?)?;
    }
    Ok(copy)
}
