ghost use Rattle.std.specs.Prelude.{◌≡◌, ◌≤◌, ◌∷◌, [], false, length, Option, IfOk, OnOk, IfSome, IfNone};
ghost use Rattle.std.specs.Bool.{OnTrue, OnFalse};
ghost use Rattle.pcj_grammar.specs.declared.lexeme.Lexeme.{Lexeme};
ghost use Rattle.pcj_grammar.specs.declared.terminal.Terminal.TheVariants.{Comma, Semicolon};
ghost use Rattle.pcj_translate.specs.Adding.{begins_comma, begins_semicolon, begins_verb, is_verb, AddsObject, AddsObjects, AddsPredicate, AddsPredicates, AddsSame, behind_one, behind_dot, begins_value, is_value, AddsBlock};
ghost use Rattle.pcj_translate.specs.Filter.{operand_of};
ghost use Rattle.pcj_expr.specs.declared.expr.Expr.TheVariants.{Or, And};
ghost use Rattle.pcj_grammar.specs.declared.terminal.Terminal.TheVariants as t;
ghost use Rattle.pcj_translate.specs.Testing.{compare_of, compare_at, ReadsTest, begins_not, begins_paren, begins_and, begins_or, ReadsInner, ReadsOne, ReadsAll, ReadsExpr};
ghost use Rattle.pcj_algebra.specs.declared.pattern.Pattern.{Pattern};
ghost use Rattle.pcj_expr.specs.declared.expr.Expr.{Expr};
ghost use Rattle.pcj_translate.specs.Grouping.{begins_union, begins_brace, begins_other, ReadsGroup, ReadsJoint, ReadsBlock, ReadsOther};
ghost use Rattle.pcj_translate.specs.Term.{iri_or_none, text_of};
ghost use Rattle.pcj_term.specs.declared.term.Term.TheVariants.{Iri};
ghost use Rattle.pcj_translate.specs.Reading.{scope_of_reader};
ghost use Rattle.pcj_translate.specs.Triples.{rdf_type};
ghost use Rattle.pcj_translate.specs.ValueReading.{datatype_at, suffix_at, text_slot, value_at};

use crate::content::Content;
use crate::joining::united;
use crate::scope::Prefixes;
use crate::source::{behind_first, integer_term, kind_of_datatype, source_of, tag_of, text_of};
use pcj_algebra::{Pattern, Slot, TriplePattern};
use pcj_expr::{Compare, Expr, Operand};
use pcj_grammar::{Lexeme, Terminal};
use pcj_term::{Bytes, Items, Kind, Memory, Term, TryClone};
use sqlite_items::Boxed;
use std::alloc::Global;

/// The tokens of a query that are still to be read.
#[derive(Drop)]
pub struct Reader<'t> {
    /// The text of the query.
    pub text: &'t [u8],
    /// What its prefixes stand for.
    pub prefixes: &'t Prefixes,
    /// The tokens that are still to be read.
    pub rest: &'t [Lexeme],
}

impl<'t> Reader<'t> {
    /// Takes the next token.
    fn next(&mut self) -> Option<Lexeme>
        ensures some { IfSome result (λ l. self.old.rest.now ≡ l ∷ self.new.rest.now) }
        ensures none { IfNone result ((self.old.rest.now ≡ []) × (self.new.rest.now ≡ [])) }
        ensures scope { scope_of_reader self.new ≡ scope_of_reader self.old }
    {
        let (first, rest) = self.rest.split_first()?;
        self.rest = rest;
        Some(*first)
    }

    /// The IRI that a token writes, or nothing.
    fn iri(&self, alloc: Global, lexeme: Lexeme) -> Result<Bytes, Memory>
        ensures { IfOk result (λ iri. iri ≡ iri_or_none (scope_of_reader self.now) lexeme) }
    {
        match self.prefixes.iri_of(alloc, self.text, lexeme)? {
            Some(iri) => Ok(iri),
            None => Ok(Bytes::new(alloc)),
        }
    }

    /// Takes a datatype behind `^^`.
    fn datatype(&mut self, alloc: Global) -> Result<Kind, Memory>
        ensures kind { IfOk result (λ kind. datatype_at (scope_of_reader self.old) self.old.rest.now ≡ (kind, self.new.rest.now)) }
        ensures scope { scope_of_reader self.new ≡ scope_of_reader self.old }
    {
        let Some(lexeme) = self.next() else {
            return Ok(Kind::Plain);
        };
        Ok(kind_of_datatype(self.iri(alloc, lexeme)?))
    }

    /// Takes what follows a string: a tag, a datatype, or nothing.
    fn suffix(&mut self, alloc: Global) -> Result<Kind, Memory>
        ensures kind { IfOk result (λ kind. suffix_at (scope_of_reader self.old) self.old.rest.now ≡ (kind, self.new.rest.now)) }
        ensures scope { scope_of_reader self.new ≡ scope_of_reader self.old }
    {
        let [lexeme, rest @ ..] = self.rest else {
            return Ok(Kind::Plain);
        };
        match lexeme.terminal {
            Terminal::Tag => {
                self.rest = rest;
                Ok(Kind::Lang(tag_of(alloc, source_of(self.text, *lexeme))?))
            }
            Terminal::Datatype => {
                self.rest = rest;
                self.datatype(alloc)
            }
            _ => Ok(Kind::Plain),
        }
    }

    /// Takes a value, or what stands in a predicate's place.
    fn value(&mut self, alloc: Global) -> Result<Slot, Memory>
        ensures value { IfOk result (λ slot. value_at (scope_of_reader self.old) self.old.rest.now ≡ (slot, self.new.rest.now)) }
        ensures scope { scope_of_reader self.new ≡ scope_of_reader self.old }
    {
        let Some(lexeme) = self.next() else {
            return Ok(Slot::Var(Bytes::new(alloc)));
        };
        let source = source_of(self.text, lexeme);
        match lexeme.terminal {
            Terminal::Var => Ok(Slot::Var(Bytes::from_slice(alloc, behind_first(source))?)),
            Terminal::Integer => Ok(Slot::Value(integer_term(alloc, source)?)),
            Terminal::Text => self.literal(alloc, source),
            Terminal::A => Ok(Slot::Value(rdf_type(alloc)?)),
            _ => Ok(Slot::Value(Term::Iri(self.iri(alloc, lexeme)?))),
        }
    }

    /// A literal by its string, which has been taken; takes what follows it.
    fn literal(&mut self, alloc: Global, source: &[u8]) -> Result<Slot, Memory>
        ensures value { IfOk result (λ slot. text_slot (text_of source.now) (suffix_at (scope_of_reader self.old) self.old.rest.now) ≡ (slot, self.new.rest.now)) }
        ensures scope { scope_of_reader self.new ≡ scope_of_reader self.old }
    {
        let text = text_of(alloc, source)?;
        let kind = self.suffix(alloc)?;
        Ok(Slot::Value(Term::Literal { text, kind }))
    }

    /// Takes a comma, where it stands at the front, and says whether it does.
    fn comma(&mut self) -> bool
        ensures taken { OnTrue result ((c : Lexeme) × (self.old.rest.now ≡ c ∷ self.new.rest.now) × (c.terminal ≡ Comma)) }
        ensures none { OnFalse result ((begins_comma self.old.rest.now ≡ false) × (self.new.rest.now ≡ self.old.rest.now)) }
        ensures scope { scope_of_reader self.new ≡ scope_of_reader self.old }
    {
        match self.rest {
            [lexeme, rest @ ..] if matches!(lexeme.terminal, Terminal::Comma) => {
                self.rest = rest;
                true
            }
            _ => false,
        }
    }

    /// Takes an object, and adds its triple pattern.
    fn object(
        &mut self,
        alloc: Global,
        subject: &Slot,
        predicate: &Slot,
        triples: &mut Items<TriplePattern>,
    ) -> Result<(), Memory>
        ensures ok { OnOk result (AddsObject (scope_of_reader self.old) subject.now predicate.now self.old.rest.now self.new.rest.now triples.old triples.new) }
        ensures fewer { OnOk result (length self.new.rest.now ≤ length self.old.rest.now) }
        ensures scope { scope_of_reader self.new ≡ scope_of_reader self.old }
    {
        let object = self.value(alloc)?;
        let subject = subject.try_clone(alloc)?;
        let predicate = predicate.try_clone(alloc)?;
        triples.push(TriplePattern {
            subject,
            predicate,
            object,
        })
    }

    /// Takes the objects of a predicate, and adds their triple patterns.
    fn objects(
        &mut self,
        alloc: Global,
        subject: &Slot,
        predicate: &Slot,
        triples: &mut Items<TriplePattern>,
    ) -> Result<(), Memory>
        ensures ok { OnOk result (AddsObjects (scope_of_reader self.old) subject.now predicate.now self.old.rest.now self.new.rest.now triples.old triples.new) }
        ensures fewer { OnOk result (length self.new.rest.now ≤ length self.old.rest.now) }
        ensures scope { scope_of_reader self.new ≡ scope_of_reader self.old }
    {
        self.object(alloc, subject, predicate, triples)?;
        while self.comma() {
            self.object(alloc, subject, predicate, triples)?;
        }
        Ok(())
    }

    /// Takes a semicolon, where it stands at the front, and says whether it does.
    fn semicolon(&mut self) -> bool
        ensures taken { OnTrue result ((c : Lexeme) × (self.old.rest.now ≡ c ∷ self.new.rest.now) × (c.terminal ≡ Semicolon)) }
        ensures none { OnFalse result ((begins_semicolon self.old.rest.now ≡ false) × (self.new.rest.now ≡ self.old.rest.now)) }
        ensures scope { scope_of_reader self.new ≡ scope_of_reader self.old }
    {
        match self.rest {
            [lexeme, rest @ ..] if matches!(lexeme.terminal, Terminal::Semicolon) => {
                self.rest = rest;
                true
            }
            _ => false,
        }
    }

    /// Whether what may be a predicate stands at the front.
    fn starts_verb(&self) -> bool
        ensures { result ≡ begins_verb self.now.rest.now }
    {
        match self.rest {
            [] => false,
            [lexeme, ..] => is_verb(lexeme.terminal),
        }
    }

    /// Takes a predicate and its objects, and adds their triple patterns.
    fn predicate(
        &mut self,
        alloc: Global,
        subject: &Slot,
        triples: &mut Items<TriplePattern>,
    ) -> Result<(), Memory>
        ensures ok { OnOk result (AddsPredicate (scope_of_reader self.old) subject.now self.old.rest.now self.new.rest.now triples.old triples.new) }
        ensures fewer { OnOk result (length self.new.rest.now ≤ length self.old.rest.now) }
        ensures scope { scope_of_reader self.new ≡ scope_of_reader self.old }
    {
        let predicate = self.value(alloc)?;
        self.objects(alloc, subject, &predicate, triples)
    }

    /// Takes what is said of a subject, behind it, and adds its triple patterns.
    fn predicates(
        &mut self,
        alloc: Global,
        subject: &Slot,
        triples: &mut Items<TriplePattern>,
    ) -> Result<(), Memory>
        ensures ok { OnOk result (AddsPredicates (scope_of_reader self.old) subject.now self.old.rest.now self.new.rest.now triples.old triples.new) }
        ensures fewer { OnOk result (length self.new.rest.now ≤ length self.old.rest.now) }
        ensures scope { scope_of_reader self.new ≡ scope_of_reader self.old }
    {
        self.predicate(alloc, subject, triples)?;
        while self.semicolon() {
            if self.starts_verb() {
                self.predicate(alloc, subject, triples)?;
            }
        }
        Ok(())
    }

    /// Takes a subject and what is said of it, and adds its triple patterns.
    fn same(&mut self, alloc: Global, triples: &mut Items<TriplePattern>) -> Result<(), Memory>
        ensures ok { OnOk result (AddsSame (scope_of_reader self.old) self.old.rest.now self.new.rest.now triples.old triples.new) }
        ensures fewer { OnOk result (length self.new.rest.now ≤ length (behind_one self.old.rest.now)) }
        ensures scope { scope_of_reader self.new ≡ scope_of_reader self.old }
    {
        let subject = self.value(alloc)?;
        self.predicates(alloc, &subject, triples)
    }

    /// Takes the sign of a comparison.
    fn compare(&mut self) -> Compare
        ensures sign { result ≡ compare_at self.old.rest.now }
        ensures rest { self.new.rest.now ≡ behind_one self.old.rest.now }
        ensures scope { scope_of_reader self.new ≡ scope_of_reader self.old }
    {
        let Some(lexeme) = self.next() else {
            return Compare::Eq;
        };
        compare_of(lexeme.terminal)
    }

    /// Takes a comparison.
    fn test(&mut self, alloc: Global) -> Result<Expr, Memory>
        ensures ok { IfOk result (ReadsTest (scope_of_reader self.old) self.old.rest.now self.new.rest.now) }
        ensures fewer { OnOk result (length self.new.rest.now ≤ length self.old.rest.now) }
        ensures scope { scope_of_reader self.new ≡ scope_of_reader self.old }
    {
        let left = self.value(alloc)?;
        let compare = self.compare();
        let right = self.value(alloc)?;
        Ok(Expr::Test(compare, operand_of(left), operand_of(right)))
    }

    /// Goes behind the first token.
    pub fn skip(&mut self)
        ensures rest { self.new.rest.now ≡ behind_one self.old.rest.now }
        ensures scope { scope_of_reader self.new ≡ scope_of_reader self.old }
    {
        if let [_, rest @ ..] = self.rest {
            self.rest = rest;
        }
    }

    fn starts_not(&self) -> bool
        ensures { result ≡ begins_not self.now.rest.now }
    {
        match self.rest {
            [] => false,
            [lexeme, ..] => matches!(lexeme.terminal, Terminal::Not),
        }
    }

    fn starts_paren(&self) -> bool
        ensures { result ≡ begins_paren self.now.rest.now }
    {
        match self.rest {
            [] => false,
            [lexeme, ..] => matches!(lexeme.terminal, Terminal::OpenParen),
        }
    }

    /// Takes `&&`, where it stands at the front, and says whether it does.
    fn and(&mut self) -> bool
        ensures taken { OnTrue result ((c : Lexeme) × (self.old.rest.now ≡ c ∷ self.new.rest.now) × (c.terminal ≡ t.And)) }
        ensures none { OnFalse result ((begins_and self.old.rest.now ≡ false) × (self.new.rest.now ≡ self.old.rest.now)) }
        ensures scope { scope_of_reader self.new ≡ scope_of_reader self.old }
    {
        match self.rest {
            [lexeme, rest @ ..] if matches!(lexeme.terminal, Terminal::And) => {
                self.rest = rest;
                true
            }
            _ => false,
        }
    }

    /// Takes `||`, where it stands at the front, and says whether it does.
    fn or(&mut self) -> bool
        ensures taken { OnTrue result ((c : Lexeme) × (self.old.rest.now ≡ c ∷ self.new.rest.now) × (c.terminal ≡ t.Or)) }
        ensures none { OnFalse result ((begins_or self.old.rest.now ≡ false) × (self.new.rest.now ≡ self.old.rest.now)) }
        ensures scope { scope_of_reader self.new ≡ scope_of_reader self.old }
    {
        match self.rest {
            [lexeme, rest @ ..] if matches!(lexeme.terminal, Terminal::Or) => {
                self.rest = rest;
                true
            }
            _ => false,
        }
    }

    /// Takes a condition in parentheses.
    #[cycle(conditions)]
    pub fn inner(&mut self, alloc: Global, levels: u8) -> Result<Expr, Memory>
        ensures ok { IfOk result (ReadsInner (scope_of_reader self.old) levels self.old.rest.now self.new.rest.now) }
        ensures fewer { OnOk result (length self.new.rest.now ≤ length self.old.rest.now) }
        ensures scope { scope_of_reader self.new ≡ scope_of_reader self.old }
    {
        if levels == 0 {
            return Ok(Expr::Test(
                Compare::Eq,
                Operand::Var(Bytes::new(alloc)),
                Operand::Var(Bytes::new(alloc)),
            ));
        }
        self.skip();
        let inner = self.expr(alloc, levels - 1)?;
        self.skip();
        Ok(inner)
    }

    /// Takes a condition that is joined with no other.
    #[cycle(conditions)]
    fn one(&mut self, alloc: Global, levels: u8) -> Result<Expr, Memory>
        ensures ok { IfOk result (ReadsOne (scope_of_reader self.old) levels self.old.rest.now self.new.rest.now) }
        ensures fewer { OnOk result (length self.new.rest.now ≤ length self.old.rest.now) }
        ensures scope { scope_of_reader self.new ≡ scope_of_reader self.old }
    {
        if self.starts_not() {
            self.skip();
            let inner = self.inner(alloc, levels)?;
            return Ok(Expr::Not(Boxed::new(alloc, inner)?));
        }
        if self.starts_paren() {
            self.inner(alloc, levels)
        } else {
            self.test(alloc)
        }
    }

    /// Takes conditions that are joined by `&&`.
    #[cycle(conditions)]
    fn all(&mut self, alloc: Global, levels: u8) -> Result<Expr, Memory>
        ensures ok { IfOk result (ReadsAll (scope_of_reader self.old) levels self.old.rest.now self.new.rest.now) }
        ensures fewer { OnOk result (length self.new.rest.now ≤ length self.old.rest.now) }
        ensures scope { scope_of_reader self.new ≡ scope_of_reader self.old }
    {
        let mut first = self.one(alloc, levels)?;
        while self.and() {
            let next = self.one(alloc, levels)?;
            first = and_of(alloc, first, next)?;
        }
        Ok(first)
    }

    /// Takes conditions that are joined by `||`.
    #[cycle(conditions)]
    fn expr(&mut self, alloc: Global, levels: u8) -> Result<Expr, Memory>
        ensures ok { IfOk result (ReadsExpr (scope_of_reader self.old) levels self.old.rest.now self.new.rest.now) }
        ensures fewer { OnOk result (length self.new.rest.now ≤ length self.old.rest.now) }
        ensures scope { scope_of_reader self.new ≡ scope_of_reader self.old }
    {
        let mut first = self.all(alloc, levels)?;
        while self.or() {
            let next = self.all(alloc, levels)?;
            first = or_of(alloc, first, next)?;
        }
        Ok(first)
    }

    /// Whether what may be a subject stands at the front.
    fn starts_value(&self) -> bool
        ensures { result ≡ begins_value self.now.rest.now }
    {
        match self.rest {
            [] => false,
            [lexeme, ..] => is_value(lexeme.terminal),
        }
    }

    /// Takes a dot, where it stands at the front.
    pub fn dot(&mut self)
        ensures rest { self.new.rest.now ≡ behind_dot self.old.rest.now }
        ensures scope { scope_of_reader self.new ≡ scope_of_reader self.old }
    {
        if let [lexeme, rest @ ..] = self.rest {
            if matches!(lexeme.terminal, Terminal::Dot) {
                self.rest = rest;
            }
        }
    }

    /// Takes a block, where one stands at the front, and adds its triple patterns.
    pub fn block(&mut self, alloc: Global, triples: &mut Items<TriplePattern>) -> Result<(), Memory>
        ensures ok { OnOk result (AddsBlock (scope_of_reader self.old) self.old.rest.now self.new.rest.now triples.old triples.new) }
        ensures fewer { OnOk result (length self.new.rest.now ≤ length self.old.rest.now) }
        ensures scope { scope_of_reader self.new ≡ scope_of_reader self.old }
    {
        while self.starts_value() {
            self.same(alloc, triples)?;
            self.dot();
        }
        Ok(())
    }

    /// Whether a `{` stands at the front.
    pub fn starts_brace(&self) -> bool
        ensures { result ≡ begins_brace self.now.rest.now }
    {
        match self.rest {
            [] => false,
            [lexeme, ..] => matches!(lexeme.terminal, Terminal::OpenBrace),
        }
    }

    /// Whether a filter or a group stands at the front.
    pub fn starts_other(&self) -> bool
        ensures { result ≡ begins_other self.now.rest.now }
    {
        match self.rest {
            [] => false,
            [lexeme, ..] => matches!(lexeme.terminal, Terminal::OpenBrace | Terminal::Filter),
        }
    }

    /// Takes `UNION`, where it stands at the front, and says whether it does.
    fn union(&mut self) -> bool
        ensures taken { OnTrue result ((c : Lexeme) × (self.old.rest.now ≡ c ∷ self.new.rest.now) × (c.terminal ≡ t.Union)) }
        ensures none { OnFalse result ((begins_union self.old.rest.now ≡ false) × (self.new.rest.now ≡ self.old.rest.now)) }
        ensures scope { scope_of_reader self.new ≡ scope_of_reader self.old }
    {
        match self.rest {
            [lexeme, rest @ ..] if matches!(lexeme.terminal, Terminal::Union) => {
                self.rest = rest;
                true
            }
            _ => false,
        }
    }

    /// Takes a block, where one stands at the front, and puts its triple patterns behind what a group has.
    fn joined_block(&mut self, alloc: Global, before: Content) -> Result<Content, Memory>
        ensures ok { IfOk result (ReadsBlock (scope_of_reader self.old) before self.old.rest.now self.new.rest.now) }
        ensures fewer { OnOk result (length self.new.rest.now ≤ length self.old.rest.now) }
        ensures scope { scope_of_reader self.new ≡ scope_of_reader self.old }
    {
        let mut triples = Items::new(alloc);
        self.block(alloc, &mut triples)?;
        before.with_triples(alloc, triples.as_slice())
    }

    /// Takes groups that `UNION` joins.
    #[cycle(groups)]
    fn joint(&mut self, alloc: Global, levels: u8) -> Result<Option<Pattern>, Memory>
        ensures ok { IfOk result (ReadsJoint (scope_of_reader self.old) levels self.old.rest.now self.new.rest.now) }
        ensures fewer { OnOk result (length self.new.rest.now ≤ length (behind_one self.old.rest.now)) }
        ensures scope { scope_of_reader self.new ≡ scope_of_reader self.old }
    {
        let mut first = self.group(alloc, levels)?;
        while self.union() {
            let next = self.group(alloc, levels)?;
            first = united(alloc, first, next)?;
        }
        Ok(first)
    }

    /// Takes a filter, or groups that `UNION` joins, and puts it behind what a group has.
    #[cycle(groups)]
    fn other(&mut self, alloc: Global, levels: u8, before: Content) -> Result<Content, Memory>
        ensures ok { IfOk result (ReadsOther (scope_of_reader self.old) levels before self.old.rest.now self.new.rest.now) }
        ensures fewer { OnOk result (length self.new.rest.now ≤ length (behind_one self.old.rest.now)) }
        ensures scope { scope_of_reader self.new ≡ scope_of_reader self.old }
    {
        if self.starts_brace() {
            let joint = self.joint(alloc, levels)?;
            return before.with_group(alloc, joint);
        }
        self.skip();
        let condition = self.inner(alloc, levels)?;
        before.with_condition(alloc, condition)
    }

    /// Takes a group.
    #[cycle(groups)]
    pub fn group(&mut self, alloc: Global, levels: u8) -> Result<Option<Pattern>, Memory>
        ensures ok { IfOk result (ReadsGroup (scope_of_reader self.old) levels self.old.rest.now self.new.rest.now) }
        ensures fewer { OnOk result (length self.new.rest.now ≤ length (behind_one self.old.rest.now)) }
        ensures scope { scope_of_reader self.new ≡ scope_of_reader self.old }
    {
        self.skip();
        if levels == 0 {
            return Ok(None);
        }
        let mut content = self.joined_block(alloc, Content::new())?;
        while self.starts_other() {
            let after = self.other(alloc, levels - 1, content)?;
            self.dot();
            content = self.joined_block(alloc, after)?;
        }
        self.skip();
        content.closed(alloc)
    }
}

fn is_verb(terminal: Terminal) -> bool
    ensures { result ≡ is_verb terminal }
{
    matches!(
        terminal,
        Terminal::Var | Terminal::Iri | Terminal::Namespace | Terminal::Name | Terminal::A
    )
}

/// The predicate `a`.
fn rdf_type(alloc: Global) -> Result<Term, Memory>
    ensures { IfOk result (λ term. term ≡ Iri rdf_type) }
{
    let iri = Bytes::from_slice(alloc, b"http://www.w3.org/1999/02/22-rdf-syntax-ns#type")?;
    Ok(Term::Iri(iri))
}

fn is_value(terminal: Terminal) -> bool
    ensures { result ≡ is_value terminal }
{
    matches!(
        terminal,
        Terminal::Var
            | Terminal::Iri
            | Terminal::Namespace
            | Terminal::Name
            | Terminal::Integer
            | Terminal::Text
    )
}

fn compare_of(terminal: Terminal) -> Compare
    ensures { result ≡ compare_of terminal }
{
    match terminal {
        Terminal::Unequal => Compare::Ne,
        Terminal::Less => Compare::Lt,
        Terminal::Greater => Compare::Gt,
        Terminal::AtMost => Compare::Le,
        Terminal::AtLeast => Compare::Ge,
        _ => Compare::Eq,
    }
}

fn operand_of(slot: Slot) -> Operand
    ensures { result ≡ operand_of slot }
{
    match slot {
        Slot::Var(variable) => Operand::Var(variable),
        Slot::Value(term) => Operand::Value(term),
    }
}

pub(crate) fn and_of(alloc: Global, first: Expr, next: Expr) -> Result<Expr, Memory>
    ensures { IfOk result (λ condition. condition ≡ And first next) }
{
    Ok(Expr::And(Boxed::new(alloc, first)?, Boxed::new(alloc, next)?))
}

fn or_of(alloc: Global, first: Expr, next: Expr) -> Result<Expr, Memory>
    ensures { IfOk result (λ condition. condition ≡ Or first next) }
{
    Ok(Expr::Or(Boxed::new(alloc, first)?, Boxed::new(alloc, next)?))
}
