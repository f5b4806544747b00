ghost use Rattle.std.specs.Prelude.{◌≡◌};
ghost use Rattle.pcj_ntriples.specs.declared.error.NtRefusal.TheVariants as refusals;

use crate::kind::NtKind;
use pcj_term::{Memory, TryClone};
use std::alloc::{AllocError, AllocFailed, Global};

/// A line that is refused.
#[derive(Clone, Copy, Debug, PartialEq, Eq)]
pub struct NtError {
    /// The line's number in its document, from 1.
    pub line: u64,
    /// What is wrong with it.
    pub kind: NtKind,
}

/// Why a document was not read.
#[derive(Clone, Copy, Debug, PartialEq, Eq)]
pub enum NtRefusal {
    /// The document is none: its first line that is wrong.
    Refused(NtError),
    /// There was no memory left, which says nothing of the document.
    Memory,
}

impl From<Memory> for NtRefusal {
    ghost from_gives = { λ _ refusal. refusal ≡ refusals.Memory };

    fn from(_memory: Memory) -> NtRefusal {
        NtRefusal::Memory
    }
}

impl From<AllocError> for NtRefusal {
    ghost from_gives = { λ _ refusal. refusal ≡ refusals.Memory };

    fn from(_error: AllocError) -> NtRefusal {
        NtRefusal::Memory
    }
}

impl<T: Drop> From<AllocFailed<T>> for NtRefusal {
    ghost from_gives = { λ _ refusal. refusal ≡ refusals.Memory };

    fn from(_error: AllocFailed<T>) -> NtRefusal {
        NtRefusal::Memory
    }
}

impl TryClone for NtError {
    fn try_clone(&self, _alloc: Global) -> Result<NtError, Memory> {
        Ok(*self)
    }
}

impl TryClone for NtRefusal {
    fn try_clone(&self, _alloc: Global) -> Result<NtRefusal, Memory> {
        Ok(*self)
    }
}
