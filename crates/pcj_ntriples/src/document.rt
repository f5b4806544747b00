ghost use Rattle.std.specs.Prelude.{◌≡◌, IfOk, IfErr, Ok};
ghost use Rattle.pcj_ntriples.specs.declared.error.NtRefusal.TheVariants.{Memory};
ghost use Rattle.pcj_ntriples.specs.Document.{Document, Refuses, SaysOneThing, HasOneFault, IsNotBoth, IsEither};
ghost use Rattle.pcj_ntriples.specs.LineReading.{said_at};
ghost use Rattle.pcj_ntriples.specs.ReadLine.{RefusesLine};
ghost use Rattle.pcj_ntriples.specs.Valid.{HasValidTriples};

use crate::error::{NtError, NtRefusal};
use crate::fault::Fault;
use crate::kind::NtKind;
use crate::line::read_line;
use crate::lines::first_line;
use indexmap::IndexSet;
use pcj_term::{Items, Triple};
use std::alloc::Global;

/// How many distinct triples a document may have.
const TRIPLE_LIMIT: usize = 10_000;

/// The triples of an N-Triples document (RDF 1.1 N-Triples), each once, in the order of first appearance.
/// Its blank nodes carry the load's number.
///
/// A line ends at LF, at CR or at both as one, and the last line's end may be missing. The lowest line with a
/// fault is refused by its number from 1, with the first fault that reading from left to right meets. `Memory`
/// can come at any line, before a faulty one too.
pub fn read_document(alloc: Global, text: &[u8], load: u64) -> Result<Items<Triple>, NtRefusal>
    ensures document { IfOk result (λ triples. Document text.now load triples) }
    ensures refused { IfErr result (λ refusal. Refuses text.now refusal) }
{
    let mut triples = IndexSet::new(alloc);
    let mut rest = text;
    let mut number: u64 = 0;
    while !rest.is_empty() {
        let (line, following) = first_line(rest);
        number += 1;
        if let Some(triple) = numbered_line(alloc, load, number, line)? {
            triples.insert(triple)?;
            if triples.len() > TRIPLE_LIMIT {
                return Err(NtRefusal::Refused(NtError {
                    line: number,
                    kind: NtKind::TooMany,
                }));
            }
        }
        rest = following;
    }
    items_of(alloc, triples)
}

/// What a line says, or its refusal with its number.
fn numbered_line(
    alloc: Global,
    load: u64,
    number: u64,
    line: &[u8],
) -> Result<Option<Triple>, NtRefusal>
    ensures said { IfOk result (λ said. said_at load line.now ≡ Ok said) }
    ensures refused { IfErr result (λ refusal. RefusesLine load number line.now refusal) }
{
    match read_line(alloc, load, line) {
        Ok(said) => Ok(said),
        Err(Fault::Wrong(kind)) => Err(NtRefusal::Refused(NtError { line: number, kind })),
        Err(Fault::Memory) => Err(NtRefusal::Memory),
    }
}

/// The values of a set, in order.
fn items_of(alloc: Global, triples: IndexSet<Triple>) -> Result<Items<Triple>, NtRefusal>
    ensures kept { IfOk result (λ items. items ≡ triples.keys) }
    ensures refused { IfErr result (λ refusal. refusal ≡ Memory) }
{
    Ok(Items::from_vec(triples.into_iter().collect(alloc)?))
}

/// For every text there is exactly one reading: it is a document, in one way, or it is refused, in one way.
pub fn one_reading()
    ensures same { SaysOneThing }
    ensures fault { HasOneFault }
    ensures apart { IsNotBoth }
    ensures some { IsEither }
{}

/// Every triple of a document is one of RDF (RDF 1.1 Concepts, section 3.1), its terms are valid, and its blank
/// nodes carry the load's number.
pub fn valid_triples()
    ensures { HasValidTriples }
{}
