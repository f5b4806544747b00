ghost use Rattle.std.specs.Prelude.{◌≡◌};
ghost use Rattle.pcj_session.specs.declared.stop.Stop.TheVariants as stops;

/// Why a command has no answer.
#[derive(Clone, Copy, PartialEq, Eq)]
pub enum Stop {
    /// There was no memory.
    Memory,
    /// 2^48 would be drawn for it.
    Spent,
}

impl From<pcj_term::Memory> for Stop {
    ghost from_gives = { λ _ stop. stop ≡ stops.Memory };

    fn from(_memory: pcj_term::Memory) -> Stop {
        Stop::Memory
    }
}
