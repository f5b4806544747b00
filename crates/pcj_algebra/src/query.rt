use crate::pattern::Pattern;
use pcj_term::{Bytes, Items, Memory, TryClone};
use std::alloc::Global;

/// What is computed of a variable over a group of solutions (SPARQL 1.1 Query, section 18.5.1).
#[derive(Clone, Copy, PartialEq, Eq)]
pub enum Aggregate {
    /// How many distinct terms it has.
    Count,
    /// The sum of its values.
    Sum,
    /// The least of its values.
    Min,
    /// The greatest of its values.
    Max,
}

impl TryClone for Aggregate {
    fn try_clone(&self, _alloc: Global) -> Result<Aggregate, Memory> {
        Ok(*self)
    }
}

/// What a row of an answer has.
#[derive(Drop)]
pub enum Shape {
    /// `SELECT DISTINCT` of these variables (section 18.2.4).
    Distinct(Items<Bytes>),
    /// The keys of `GROUP BY`, in the order of SELECT, and an aggregate of a variable under another name.
    Group {
        keys: Items<Bytes>,
        aggregate: Aggregate,
        var: Bytes,
        as_name: Bytes,
    },
}

impl TryClone for Shape {
    fn try_clone(&self, alloc: Global) -> Result<Shape, Memory> {
        match self {
            Shape::Distinct(names) => Ok(Shape::Distinct(names.try_clone(alloc)?)),
            Shape::Group {
                keys,
                aggregate,
                var,
                as_name,
            } => Ok(Shape::Group {
                keys: keys.try_clone(alloc)?,
                aggregate: *aggregate,
                var: var.try_clone(alloc)?,
                as_name: as_name.try_clone(alloc)?,
            }),
        }
    }
}

/// A query of the profile.
#[derive(Drop)]
pub struct Query {
    /// What a row of its answer has.
    pub shape: Shape,
    /// Whose solutions are asked for.
    pub pattern: Pattern,
}

impl TryClone for Query {
    fn try_clone(&self, alloc: Global) -> Result<Query, Memory> {
        Ok(Query {
            shape: self.shape.try_clone(alloc)?,
            pattern: self.pattern.try_clone(alloc)?,
        })
    }
}
