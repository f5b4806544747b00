ghost use Rattle.std.specs.Prelude.{◌≡◌};
ghost use Rattle.pcj_replay.specs.declared.stop.Stop.TheVariants.{Memory};

use pcj_io::SinkError;
use pcj_session::Stop as SessionStop;

/// Why a run ends before what was read of its script does.
#[derive(Clone, Copy, PartialEq, Eq)]
pub(crate) enum Stop {
    /// What was said couldn't be written.
    SinkFault,
    /// There was no memory.
    Memory,
    /// For a command 2^48 would be drawn.
    Spent,
}

impl From<SinkError> for Stop {
    ghost use Rattle.pcj_replay.specs.Stop.{sink_stop};

    ghost from_gives = { λ error stop. stop ≡ sink_stop error };

    fn from(error: SinkError) -> Stop {
        match error {
            SinkError::Failed => Stop::SinkFault,
            SinkError::Memory => Stop::Memory,
        }
    }
}

impl From<SessionStop> for Stop {
    ghost use Rattle.pcj_replay.specs.Stop.{session_stop};

    ghost from_gives = { λ stopped stop. stop ≡ session_stop stopped };

    fn from(stopped: SessionStop) -> Stop {
        match stopped {
            SessionStop::Memory => Stop::Memory,
            SessionStop::Spent => Stop::Spent,
        }
    }
}

impl From<pcj_term::Memory> for Stop {
    ghost from_gives = { λ _ stop. stop ≡ Memory };

    fn from(_: pcj_term::Memory) -> Stop {
        Stop::Memory
    }
}
