ghost use Rattle.std.specs.Prelude.{◌≡◌, ℕ, IfOk, IfErr, Ok, Err};
ghost use Rattle.pcj_ntriples.specs.LineReading.{skip_blanks, iri_at, kind_of_datatype, datatype_at, kind_at, literal_at, any_term_at, term_at};
ghost use Rattle.pcj_ntriples.specs.Fault.{IsFault};

use crate::enclosure::Enclosure;
use crate::fault::Fault;
use crate::kind::NtKind;
use crate::place::Place;
use crate::reader::LineReader;
use pcj_term::{Bytes, Kind, Term, is_absolute};
use std::alloc::Global;

/// How many bytes a term may have, as it is written.
const TERM_LIMIT: usize = 16_384;

impl<'a> LineReader<'a> {
    /// Takes a whole term. Blank nodes carry the load's number.
    #[tactic(auto, unfolding(crate::specs::LineReading::term_at))]
    pub(crate) fn term(&mut self, alloc: Global, load: u64, place: Place) -> Result<Term, Fault>
        ensures term { IfOk result (λ term. term_at load place self.old ≡ Ok (term, self.new)) }
        ensures fault { IfErr result (λ fault. IsFault fault (term_at load place self.old)) }
    {
        let start = self.len();
        let term = self.any_term(alloc, load, place)?;
        if start.saturating_sub(self.len()) > TERM_LIMIT {
            return Err(Fault::Wrong(NtKind::TermTooLong));
        }
        Ok(term)
    }

    /// Takes a term of any length.
    #[tactic(auto, unfolding(crate::specs::LineReading::any_term_at))]
    fn any_term(&mut self, alloc: Global, load: u64, place: Place) -> Result<Term, Fault>
        ensures term { IfOk result (λ term. any_term_at load place self.old ≡ Ok (term, self.new)) }
        ensures fault { IfErr result (λ fault. IsFault fault (any_term_at load place self.old)) }
    {
        if self.take('<') {
            return Ok(Term::Iri(self.iri(alloc)?));
        }
        if place.takes_nodes() && self.starts_node() {
            self.next();
            self.next();
            let label = self.label(alloc)?;
            return Ok(Term::Blank { load, label });
        }
        if place.takes_literals() && self.take('"') {
            return self.literal(alloc);
        }
        Err(Fault::Wrong(place.expected()))
    }

    /// Takes an IRI after its `<`.
    #[tactic(auto, unfolding(crate::specs::LineReading::iri_at))]
    fn iri(&mut self, alloc: Global) -> Result<Bytes, Fault>
        ensures iri { IfOk result (λ iri. iri_at self.old ≡ Ok (iri, self.new)) }
        ensures fault { IfErr result (λ fault. IsFault fault (iri_at self.old)) }
    {
        let iri = self.text(alloc, Enclosure::Iri)?;
        if is_absolute(iri.as_slice()) {
            Ok(iri)
        } else {
            Err(Fault::Wrong(NtKind::RelativeIri))
        }
    }

    /// Takes a literal after its first quote.
    #[tactic(auto, unfolding(crate::specs::LineReading::literal_at))]
    fn literal(&mut self, alloc: Global) -> Result<Term, Fault>
        ensures term { IfOk result (λ term. literal_at self.old ≡ Ok (term, self.new)) }
        ensures fault { IfErr result (λ fault. IsFault fault (literal_at self.old)) }
    {
        let text = self.text(alloc, Enclosure::String)?;
        let kind = self.kind(alloc)?;
        Ok(Term::Literal { text, kind })
    }

    /// Takes what follows a string: a tag, a datatype, or nothing.
    #[tactic(auto, unfolding(crate::specs::LineReading::kind_at))]
    fn kind(&mut self, alloc: Global) -> Result<Kind, Fault>
        ensures kind { IfOk result (λ kind. kind_at self.old (skip_blanks self.old) ≡ Ok (kind, self.new)) }
        ensures fault { IfErr result (λ fault. IsFault fault (kind_at self.old (skip_blanks self.old))) }
    {
        let after = self.fork();
        self.skip_blanks();
        if self.take('@') {
            return Ok(Kind::Lang(self.tag(alloc)?));
        }
        if self.starts_datatype() {
            self.next();
            self.next();
            self.skip_blanks();
            return self.datatype(alloc);
        }
        *self = after;
        Ok(Kind::Plain)
    }

    /// Takes a datatype after its `^^`.
    fn datatype(&mut self, alloc: Global) -> Result<Kind, Fault>
        ensures kind { IfOk result (λ kind. datatype_at self.old ≡ Ok (kind, self.new)) }
        ensures fault { IfErr result (λ fault. IsFault fault (datatype_at self.old)) }
    {
        if !self.take('<') {
            return Err(Fault::Wrong(NtKind::ObjectExpected));
        }
        Ok(kind_of_datatype(self.iri(alloc)?))
    }
}

/// A literal's kind by its datatype.
fn kind_of_datatype(datatype: Bytes) -> Kind
    ensures { result ≡ kind_of_datatype datatype }
{
    if datatype.as_slice() == b"http://www.w3.org/2001/XMLSchema#string".as_slice() {
        Kind::Plain
    } else {
        Kind::Typed(datatype)
    }
}
