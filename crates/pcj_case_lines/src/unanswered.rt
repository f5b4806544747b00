ghost use Rattle.std.specs.Prelude.{◌≡◌};
ghost use Rattle.pcj_case_lines.specs.declared.unanswered.Unanswered.TheVariants as reasons;

use pcj_term::Memory;
use std::alloc::{AllocError, AllocFailed};

/// Why a line has no answer.
#[derive(Clone, Copy, PartialEq, Eq)]
pub enum Unanswered {
    /// The line is no case: its call is unknown, or its fields aren't what the call takes.
    NoCase,
    /// There was no memory left.
    Memory,
}

impl From<Memory> for Unanswered {
    ghost from_gives = { λ _ why. why ≡ reasons.Memory };

    fn from(_: Memory) -> Self {
        Unanswered::Memory
    }
}

impl From<AllocError> for Unanswered {
    ghost from_gives = { λ _ why. why ≡ reasons.Memory };

    fn from(_: AllocError) -> Self {
        Unanswered::Memory
    }
}

impl<T: Drop> From<AllocFailed<T>> for Unanswered {
    ghost from_gives = { λ _ why. why ≡ reasons.Memory };

    fn from(_: AllocFailed<T>) -> Self {
        Unanswered::Memory
    }
}
