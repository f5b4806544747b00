ghost use Rattle.std.specs.Prelude.{◌≡◌};
ghost use Rattle.pcj_table.specs.declared.error.TableError.TheVariants as errors;

use pcj_term::{Memory, TryClone};
use std::alloc::Global;
use thiserror::Error;

/// Why a call of a table did nothing.
#[derive(Clone, Copy, Debug, PartialEq, Eq, Error)]
pub enum TableError {
    /// What is behind the table failed.
    #[error("the table failed")]
    Failed,
    /// There was no memory for the answer or for the row.
    #[error("out of memory")]
    Memory,
}

impl From<Memory> for TableError {
    ghost from_gives = { λ _ e. e ≡ errors.Memory };

    fn from(_: Memory) -> Self {
        TableError::Memory
    }
}

impl TryClone for TableError {
    fn try_clone(&self, _alloc: Global) -> Result<TableError, Memory> {
        Ok(*self)
    }
}
