ghost use Rattle.std.specs.Prelude.{◌≡◌};
ghost use Rattle.pcj_scan.specs.Errors.{table_error, oracle_error};
ghost use Rattle.pcj_scan.specs.declared.error.ScanError.TheVariants.{Memory};

use pcj_oracle::OracleError;
use pcj_table::TableError;
use pcj_term::{Memory, TryClone};
use std::alloc::Global;
use thiserror::Error;

/// Why a scan has no answer.
#[derive(Clone, Copy, Debug, PartialEq, Eq, Error)]
pub enum ScanError {
    /// The table failed.
    #[error("the table failed")]
    Failed,
    /// There was no memory for a call of the table or for the answer.
    #[error("out of memory")]
    Memory,
    /// All timestamps were granted, so none is left for the scan.
    #[error("all timestamps were granted")]
    Spent,
}

impl From<TableError> for ScanError {
    ghost from_gives = { λ cause e. e ≡ table_error cause };

    fn from(cause: TableError) -> Self {
        match cause {
            TableError::Failed => ScanError::Failed,
            TableError::Memory => ScanError::Memory,
        }
    }
}

impl From<OracleError> for ScanError {
    ghost from_gives = { λ cause e. e ≡ oracle_error cause };

    fn from(cause: OracleError) -> Self {
        match cause {
            OracleError::Failed => ScanError::Failed,
            OracleError::Memory => ScanError::Memory,
            OracleError::Spent => ScanError::Spent,
        }
    }
}

impl From<Memory> for ScanError {
    ghost from_gives = { λ _ e. e ≡ Memory };

    fn from(_: Memory) -> Self {
        ScanError::Memory
    }
}

impl TryClone for ScanError {
    fn try_clone(&self, _alloc: Global) -> Result<ScanError, Memory> {
        Ok(*self)
    }
}
