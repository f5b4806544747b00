ghost use Rattle.std.specs.Prelude.{◌≡◌};
ghost use Rattle.pcj_txn.specs.Errors.{table_error, oracle_error};

use pcj_oracle::OracleError;
use pcj_table::TableError;
use pcj_term::{Memory, TryClone};
use std::alloc::Global;
use thiserror::Error;

/// Why a step of a transaction did nothing.
#[derive(Clone, Copy, Debug, PartialEq, Eq, Error)]
pub enum TxnError {
    /// The table failed.
    #[error("the table failed")]
    Failed,
    /// There was no memory for a call of the table or for its answer.
    #[error("out of memory")]
    Memory,
    /// All timestamps were granted, so none is left for the commit.
    #[error("all timestamps were granted")]
    Spent,
}

impl From<TableError> for TxnError {
    ghost from_gives = { λ cause e. e ≡ table_error cause };

    fn from(cause: TableError) -> Self {
        match cause {
            TableError::Failed => TxnError::Failed,
            TableError::Memory => TxnError::Memory,
        }
    }
}

impl From<OracleError> for TxnError {
    ghost from_gives = { λ cause e. e ≡ oracle_error cause };

    fn from(cause: OracleError) -> Self {
        match cause {
            OracleError::Failed => TxnError::Failed,
            OracleError::Memory => TxnError::Memory,
            OracleError::Spent => TxnError::Spent,
        }
    }
}

impl TryClone for TxnError {
    fn try_clone(&self, _alloc: Global) -> Result<TxnError, Memory> {
        Ok(*self)
    }
}
