use pcj_term::Memory;
use std::alloc::{AllocError, AllocFailed};
use std::io;

/// Why a measure ended without a figure.
#[derive(Debug, Drop)]
pub enum Failure {
    /// There was no memory left.
    Memory,
    /// The document on standard input was refused.
    Document,
    /// The system gave no time or no arguments, or took no line.
    System,
}

impl From<Memory> for Failure {
    fn from(_: Memory) -> Self {
        Failure::Memory
    }
}

impl From<AllocError> for Failure {
    fn from(_: AllocError) -> Self {
        Failure::Memory
    }
}

impl<T: Drop> From<AllocFailed<T>> for Failure {
    fn from(_: AllocFailed<T>) -> Self {
        Failure::Memory
    }
}

impl From<io::Error> for Failure {
    fn from(_: io::Error) -> Self {
        Failure::System
    }
}
