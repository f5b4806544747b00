ghost use Rattle.std.specs.Prelude.{◌≡◌, ◌++◌, IfOk};
ghost use Rattle.pcj_encode.specs.declared.order.Order.TheVariants.{Spo, Pos, Osp};
ghost use Rattle.pcj_term.specs.declared.triple.Triple.{Triple};
ghost use Rattle.pcj_term.specs.Term.{printed};
ghost use Rattle.pcj_rowtables.specs.Rows.{triple_key};
ghost use Rattle.pcj_rows.specs.Plans.{task_key};
ghost use Rattle.pcj_client.specs.Keys.{IsPartsOf, part_of};

use pcj_key::join_parts;
use pcj_term::{Bytes, Memory, Term, Triple, print_term};
use std::alloc::Global;

/// The terms of a triple, each printed once and as a part of a key.
#[derive(Drop)]
pub(crate) struct TripleParts {
    subject: Bytes,
    predicate: Bytes,
    object: Bytes,
}

impl TripleParts {
    /// Those of a triple.
    pub(crate) fn of(alloc: Global, triple: &Triple) -> Result<TripleParts, Memory>
        ensures { IfOk result (λ parts. IsPartsOf parts triple.now) }
    {
        Ok(TripleParts {
            subject: part_of(alloc, &triple.subject)?,
            predicate: part_of(alloc, &triple.predicate)?,
            object: part_of(alloc, &triple.object)?,
        })
    }

    /// The key of the triple's row by subject.
    pub(crate) fn spo(&self, alloc: Global) -> Result<Bytes, Memory>
        ensures { (triple : Triple) → IsPartsOf self.now triple → IfOk result (λ key. key ≡ triple_key Spo triple) }
    {
        joined(alloc, b"s\0", &self.subject, &self.predicate, &self.object)
    }

    /// That of its row by predicate.
    pub(crate) fn pos(&self, alloc: Global) -> Result<Bytes, Memory>
        ensures { (triple : Triple) → IsPartsOf self.now triple → IfOk result (λ key. key ≡ triple_key Pos triple) }
    {
        joined(alloc, b"p\0", &self.predicate, &self.object, &self.subject)
    }

    /// That of its row by object.
    pub(crate) fn osp(&self, alloc: Global) -> Result<Bytes, Memory>
        ensures { (triple : Triple) → IsPartsOf self.now triple → IfOk result (λ key. key ≡ triple_key Osp triple) }
    {
        joined(alloc, b"o\0", &self.object, &self.subject, &self.predicate)
    }

    /// That of its task.
    pub(crate) fn task(&self, alloc: Global) -> Result<Bytes, Memory>
        ensures { (triple : Triple) → IsPartsOf self.now triple → IfOk result (λ key. key ≡ task_key triple) }
    {
        joined(
            alloc,
            b"n\0t\0",
            &self.subject,
            &self.predicate,
            &self.object,
        )
    }
}

/// A term as a part of a key.
fn part_of(alloc: Global, term: &Term) -> Result<Bytes, Memory>
    ensures { IfOk result (λ part. part ≡ part_of (printed term.now)) }
{
    let text = print_term(alloc, term)?;
    join_parts(alloc, &[text])
}

fn joined(
    alloc: Global,
    front: &[u8],
    first: &Bytes,
    second: &Bytes,
    third: &Bytes,
) -> Result<Bytes, Memory>
    ensures { IfOk result (λ key. key ≡ front.now ++ first.now ++ second.now ++ third.now) }
{
    let mut key = Bytes::new(alloc);
    key.extend_from_pieces(&[front, first.as_slice(), second.as_slice(), third.as_slice()])?;
    Ok(key)
}
