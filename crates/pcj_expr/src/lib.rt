//! Filters of the profile of SPARQL 1.1: conditions, mappings, and what a condition says of a mapping.
#![tactic(auto)]

mod compare;
mod expr;
mod laws;
mod mapping;
mod operand;
mod truth_value;

pub use compare::Compare;
pub use expr::{Expr, truth};
pub use laws::texts_compare_by_code_points;
pub use mapping::{Binding, Mapping};
pub use operand::Operand;
pub use truth_value::Truth;
