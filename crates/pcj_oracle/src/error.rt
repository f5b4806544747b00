ghost use Rattle.std.specs.Prelude.{◌≡◌};
ghost use Rattle.pcj_oracle.specs.Draw.{oracle_error};

use pcj_table::TableError;
use pcj_term::{Memory, TryClone};
use std::alloc::Global;
use thiserror::Error;

/// Why no number was granted.
#[derive(Clone, Copy, Debug, PartialEq, Eq, Error)]
pub enum OracleError {
    /// The table failed.
    #[error("the table failed")]
    Failed,
    /// There was no memory for a call of the table.
    #[error("out of memory")]
    Memory,
    /// All timestamps below 2^48 were granted.
    #[error("all timestamps were granted")]
    Spent,
}

impl From<TableError> for OracleError {
    ghost from_gives = { λ cause e. e ≡ oracle_error cause };

    fn from(cause: TableError) -> Self {
        match cause {
            TableError::Failed => OracleError::Failed,
            TableError::Memory => OracleError::Memory,
        }
    }
}

impl TryClone for OracleError {
    fn try_clone(&self, _alloc: Global) -> Result<OracleError, Memory> {
        Ok(*self)
    }
}
