use pcj_algebra::{Aggregate, Pattern, Query, Shape, Slot, TriplePattern};
use pcj_case_lines::Unanswered;
use pcj_expr::{Binding, Compare, Expr, Mapping, Operand};
use pcj_term::{Bytes, Items, Term, Triple, TryClone, read_term};
use sqlite_items::Boxed;
use std::alloc::Global;

/// What the words of a line have put together, and no later word has used yet.
#[derive(Drop)]
pub(crate) struct Parts {
    alloc: Global,
    operands: Vec<Operand>,
    conditions: Vec<Expr>,
    patterns: Vec<Pattern>,
    bindings: Items<Binding>,
    triples: Vec<Triple>,
}

impl Parts {
    /// Nothing yet.
    pub(crate) fn new(alloc: Global) -> Parts {
        Parts {
            alloc,
            operands: Vec::new(alloc),
            conditions: Vec::new(alloc),
            patterns: Vec::new(alloc),
            bindings: Items::new(alloc),
            triples: Vec::new(alloc),
        }
    }

    /// Adds the variable or the term that a word is.
    pub(crate) fn operand(&mut self, word: &[u8]) -> Result<(), Unanswered> {
        self.operands.push(operand(self.alloc, word)?)?;
        Ok(())
    }

    fn take_operand(&mut self) -> Result<Operand, Unanswered> {
        self.operands.pop().ok_or(Unanswered::NoCase)
    }

    fn take_name(&mut self) -> Result<Bytes, Unanswered> {
        match self.take_operand()? {
            Operand::Var(name) => Ok(name),
            Operand::Value(_) => Err(Unanswered::NoCase),
        }
    }
}

fn operand(alloc: Global, word: &[u8]) -> Result<Operand, Unanswered> {
    match word {
        [b'?', name @ ..] => Ok(Operand::Var(Bytes::from_slice(alloc, name)?)),
        _ => match read_term(alloc, word)? {
            Some(term) => Ok(Operand::Value(term)),
            None => Err(Unanswered::NoCase),
        },
    }
}

// ---- conditions

impl Parts {
    /// A comparison of the last two operands.
    pub(crate) fn test(&mut self, compare: Compare) -> Result<(), Unanswered> {
        let compare = compare.try_clone(self.alloc)?;
        let right = self.take_operand()?;
        let left = self.take_operand()?;
        self.conditions.push(Expr::Test(compare, left, right))?;
        Ok(())
    }

    /// The last condition.
    pub(crate) fn take_condition(&mut self) -> Result<Expr, Unanswered> {
        self.conditions.pop().ok_or(Unanswered::NoCase)
    }

    fn take_boxed_condition(&mut self) -> Result<Boxed<Expr>, Unanswered> {
        Ok(Boxed::new(self.alloc, self.take_condition()?)?)
    }

    /// `||` of the last two conditions.
    pub(crate) fn or(&mut self) -> Result<(), Unanswered> {
        let right = self.take_boxed_condition()?;
        let left = self.take_boxed_condition()?;
        self.conditions.push(Expr::Or(left, right))?;
        Ok(())
    }

    /// `&&` of the last two conditions.
    pub(crate) fn and(&mut self) -> Result<(), Unanswered> {
        let right = self.take_boxed_condition()?;
        let left = self.take_boxed_condition()?;
        self.conditions.push(Expr::And(left, right))?;
        Ok(())
    }

    /// `!` of the last condition.
    pub(crate) fn not(&mut self) -> Result<(), Unanswered> {
        let inner = self.take_boxed_condition()?;
        self.conditions.push(Expr::Not(inner))?;
        Ok(())
    }
}

// ---- patterns

impl Parts {
    /// A triple pattern of the last three operands.
    pub(crate) fn triple(&mut self) -> Result<(), Unanswered> {
        let object = self.take_slot()?;
        let predicate = self.take_slot()?;
        let subject = self.take_slot()?;
        self.patterns.push(Pattern::Triple(TriplePattern {
            subject,
            predicate,
            object,
        }))?;
        Ok(())
    }

    /// The triple of the last three operands, which are terms.
    pub(crate) fn take_triple(&mut self) -> Result<Triple, Unanswered> {
        let object = self.take_term()?;
        let predicate = self.take_term()?;
        let subject = self.take_term()?;
        Ok(Triple {
            subject,
            predicate,
            object,
        })
    }

    /// Adds the triple of the last three operands to the set of triples.
    pub(crate) fn fact(&mut self) -> Result<(), Unanswered> {
        let triple = self.take_triple()?;
        self.triples.push(triple)?;
        Ok(())
    }

    /// The set of triples.
    pub(crate) fn triples(&self) -> &[Triple] {
        self.triples.as_slice()
    }

    fn take_term(&mut self) -> Result<Term, Unanswered> {
        match self.take_operand()? {
            Operand::Value(term) => Ok(term),
            Operand::Var(_) => Err(Unanswered::NoCase),
        }
    }

    fn take_slot(&mut self) -> Result<Slot, Unanswered> {
        match self.take_operand()? {
            Operand::Var(name) => Ok(Slot::Var(name)),
            Operand::Value(term) => Ok(Slot::Value(term)),
        }
    }

    /// The last pattern, which stays.
    pub(crate) fn pattern(&self) -> Result<&Pattern, Unanswered> {
        self.patterns.last().ok_or(Unanswered::NoCase)
    }

    /// The last pattern.
    pub(crate) fn take_pattern(&mut self) -> Result<Pattern, Unanswered> {
        self.patterns.pop().ok_or(Unanswered::NoCase)
    }

    fn take_boxed_pattern(&mut self) -> Result<Boxed<Pattern>, Unanswered> {
        Ok(Boxed::new(self.alloc, self.take_pattern()?)?)
    }

    /// The join of the last two patterns.
    pub(crate) fn join(&mut self) -> Result<(), Unanswered> {
        let right = self.take_boxed_pattern()?;
        let left = self.take_boxed_pattern()?;
        self.patterns.push(Pattern::Join(left, right))?;
        Ok(())
    }

    /// The union of the last two patterns.
    pub(crate) fn union(&mut self) -> Result<(), Unanswered> {
        let right = self.take_boxed_pattern()?;
        let left = self.take_boxed_pattern()?;
        self.patterns.push(Pattern::Union(left, right))?;
        Ok(())
    }

    /// The last pattern under the last condition.
    pub(crate) fn filter(&mut self) -> Result<(), Unanswered> {
        let condition = self.take_condition()?;
        let inner = self.take_boxed_pattern()?;
        self.patterns.push(Pattern::Filter(condition, inner))?;
        Ok(())
    }
}

// ---- queries and mappings

impl Parts {
    /// `SELECT DISTINCT` of the names that are left, over the last pattern.
    pub(crate) fn distinct(&mut self) -> Result<Boxed<Query>, Unanswered> {
        let shape = Shape::Distinct(self.names()?);
        self.query(shape)
    }

    /// An aggregate of the last name but one under the last name, with the others as keys, over the last pattern.
    pub(crate) fn group(&mut self, aggregate: Aggregate) -> Result<Boxed<Query>, Unanswered> {
        let shape = self.group_shape(aggregate)?;
        self.query(shape)
    }

    fn query(&mut self, shape: Shape) -> Result<Boxed<Query>, Unanswered> {
        let pattern = self.take_pattern()?;
        Ok(Boxed::new(self.alloc, Query { shape, pattern })?)
    }

    fn group_shape(&mut self, aggregate: Aggregate) -> Result<Shape, Unanswered> {
        let aggregate = aggregate.try_clone(self.alloc)?;
        let as_name = self.take_name()?;
        let var = self.take_name()?;
        let keys = self.names()?;
        Ok(Shape::Group {
            keys,
            aggregate,
            var,
            as_name,
        })
    }

    fn names(&self) -> Result<Items<Bytes>, Unanswered> {
        let mut names = Items::new(self.alloc);
        for operand in self.operands.as_slice() {
            let Operand::Var(name) = operand else {
                return Err(Unanswered::NoCase);
            };
            names.push(name.try_clone(self.alloc)?)?;
        }
        Ok(names)
    }

    /// Binds the last name but one operand to that operand, which is a term.
    pub(crate) fn bind(&mut self) -> Result<(), Unanswered> {
        let term = self.take_term()?;
        let name = self.take_name()?;
        self.bindings.push(Binding { name, term })?;
        Ok(())
    }

    /// The mapping of all bindings.
    pub(crate) fn mapping(&mut self) -> Mapping {
        let bindings = std::mem::replace(&mut self.bindings, Items::new(self.alloc));
        Mapping { bindings }
    }
}
