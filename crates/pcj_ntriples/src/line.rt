ghost use Rattle.std.specs.Prelude.{◌≡◌, ℕ, Some, IfOk, IfErr, Ok, Err};
ghost use Rattle.pcj_ntriples.specs.Line.{ends_line};
ghost use Rattle.pcj_ntriples.specs.LineReading.{said_by, said_at, subject_at, predicate_at, object_at, dot_at};
ghost use Rattle.pcj_ntriples.specs.Fault.{IsFault};

use crate::fault::Fault;
use crate::kind::NtKind;
use crate::place::Place;
use crate::reader::LineReader;
use pcj_term::{Term, Triple};
use std::alloc::Global;

/// What a line says: a triple, or nothing where it has blanks and a comment at most. Blank nodes carry the
/// load's number.
#[tactic(auto, unfolding(crate::specs::LineReading::said_at))]
pub(crate) fn read_line(alloc: Global, load: u64, line: &[u8]) -> Result<Option<Triple>, Fault>
    ensures said { IfOk result (λ said. said_at load line.now ≡ Ok said) }
    ensures fault { IfErr result (λ fault. IsFault fault (said_at load line.now)) }
{
    match str::from_utf8(line) {
        Ok(text) => LineReader::new(text).line(alloc, load),
        Err(_) => Err(Fault::Wrong(NtKind::NotUtf8)),
    }
}

impl<'a> LineReader<'a> {
    /// Takes the whole line.
    #[tactic(auto, unfolding(crate::specs::LineReading::subject_at))]
    fn line(&mut self, alloc: Global, load: u64) -> Result<Option<Triple>, Fault>
        ensures said { IfOk result (λ said. said_by load self.old ≡ Ok said) }
        ensures fault { IfErr result (λ fault. IsFault fault (said_by load self.old)) }
    {
        self.skip_blanks();
        if self.ends_line() {
            return Ok(None);
        }
        let subject = self.term(alloc, load, Place::Subject)?;
        self.skip_blanks();
        Ok(Some(self.after_subject(alloc, load, subject)?))
    }

    /// Takes what follows the subject and blanks.
    #[tactic(auto, unfolding(crate::specs::LineReading::predicate_at))]
    fn after_subject(&mut self, alloc: Global, load: u64, subject: Term) -> Result<Triple, Fault>
        ensures said { IfOk result (λ triple. predicate_at load subject self.old ≡ Ok (Some triple)) }
        ensures fault { IfErr result (λ fault. IsFault fault (predicate_at load subject self.old)) }
    {
        let predicate = self.term(alloc, load, Place::Predicate)?;
        self.skip_blanks();
        self.after_predicate(alloc, load, subject, predicate)
    }

    /// Takes what follows the predicate and blanks.
    #[tactic(auto, unfolding(crate::specs::LineReading::object_at))]
    fn after_predicate(
        &mut self,
        alloc: Global,
        load: u64,
        subject: Term,
        predicate: Term,
    ) -> Result<Triple, Fault>
        ensures said { IfOk result (λ triple. object_at load subject predicate self.old ≡ Ok (Some triple)) }
        ensures fault { IfErr result (λ fault. IsFault fault (object_at load subject predicate self.old)) }
    {
        let object = self.term(alloc, load, Place::Object)?;
        self.skip_blanks();
        self.after_object(Triple {
            subject,
            predicate,
            object,
        })
    }

    /// Takes the dot, and what may follow it.
    #[tactic(auto, unfolding(crate::specs::LineReading::dot_at, crate::specs::LineReading::end_at))]
    fn after_object(&mut self, triple: Triple) -> Result<Triple, Fault>
        ensures said { IfOk result (λ said. dot_at triple self.old ≡ Ok (Some said)) }
        ensures fault { IfErr result (λ fault. IsFault fault (dot_at triple self.old)) }
    {
        if !self.take('.') {
            return Err(Fault::Wrong(NtKind::DotExpected));
        }
        self.skip_blanks();
        if self.ends_line() {
            Ok(triple)
        } else {
            Err(Fault::Wrong(NtKind::TrailingText))
        }
    }

    /// Whether the line ends here, or a comment begins.
    fn ends_line(&self) -> bool
        ensures { result ≡ ends_line self.now }
    {
        match self.peek() {
            Some(character) => character == '#',
            None => true,
        }
    }
}
