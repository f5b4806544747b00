ghost use Rattle.std.specs.Prelude.{◌≡◌};
ghost use Rattle.pcj_grammar.specs.declared.fault.Refusal.TheVariants as refusals;

use std::alloc::{AllocError, AllocFailed};

/// Why a token may not stand where it does.
#[derive(Clone, Copy, PartialEq, Eq)]
pub enum FaultKind {
    /// No text of the grammar goes on with it, and it is no word; or no token starts there; or the text ends too early.
    Syntax,
    /// No text of the grammar goes on with it, and it is a word or a token that the profile leaves out.
    OutOfProfile,
    /// It opens level 65 of braces and brackets.
    TooDeep,
}

/// Where a text departs from the grammar.
#[derive(Clone, Copy, PartialEq, Eq)]
pub struct Fault {
    /// The place of the byte.
    pub at: usize,
    /// Why.
    pub kind: FaultKind,
}

/// Why the tokens of a text are not given.
#[derive(Clone, Copy, PartialEq, Eq)]
pub enum Refusal {
    /// It is no text of the grammar.
    Refused(Fault),
    /// There was no memory left, which says nothing of the text.
    Memory,
}

impl From<AllocError> for Refusal {
    ghost from_gives = { λ _ refusal. refusal ≡ refusals.Memory };

    fn from(_error: AllocError) -> Refusal {
        Refusal::Memory
    }
}

impl<T: Drop> From<AllocFailed<T>> for Refusal {
    ghost from_gives = { λ _ refusal. refusal ≡ refusals.Memory };

    fn from(_error: AllocFailed<T>) -> Refusal {
        Refusal::Memory
    }
}

impl From<pcj_term::Memory> for Refusal {
    ghost from_gives = { λ _ refusal. refusal ≡ refusals.Memory };

    fn from(_memory: pcj_term::Memory) -> Refusal {
        Refusal::Memory
    }
}
