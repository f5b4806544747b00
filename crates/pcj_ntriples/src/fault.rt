ghost use Rattle.std.specs.Prelude.{◌≡◌};
ghost use Rattle.pcj_ntriples.specs.declared.fault.Fault.TheVariants as faults;

use crate::kind::NtKind;
use std::alloc::{AllocError, AllocFailed};

/// Why a line was not read.
#[derive(Clone, Copy)]
pub(crate) enum Fault {
    /// What is wrong with it.
    Wrong(NtKind),
    /// There was no memory left, which says nothing of the line.
    Memory,
}

impl From<pcj_term::Memory> for Fault {
    ghost from_gives = { λ _ fault. fault ≡ faults.Memory };

    fn from(_memory: pcj_term::Memory) -> Fault {
        Fault::Memory
    }
}

impl From<AllocError> for Fault {
    ghost from_gives = { λ _ fault. fault ≡ faults.Memory };

    fn from(_error: AllocError) -> Fault {
        Fault::Memory
    }
}

impl<T: Drop> From<AllocFailed<T>> for Fault {
    ghost from_gives = { λ _ fault. fault ≡ faults.Memory };

    fn from(_error: AllocFailed<T>) -> Fault {
        Fault::Memory
    }
}
