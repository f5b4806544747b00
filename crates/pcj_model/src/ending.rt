ghost use Rattle.std.specs.Prelude.{◌≡◌};
ghost use Rattle.pcj_model.specs.Ending.{status_of};

use pcj_script::ScriptError;

/// How a run of a script ends.
#[derive(Clone, Copy)]
pub enum Ending {
    /// The script was carried out to its end.
    Ended,
    /// A line of the script is refused.
    Refused(ScriptError),
    /// The script couldn't be read to its end.
    SourceFault,
    /// What was said couldn't be written.
    SinkFault,
    /// There is no memory.
    OutOfMemory,
    /// For a command 2^48 would be drawn.
    Spent,
    /// The table couldn't be looked at before the first command.
    TableFault,
}

impl Ending {
    /// The program's exit status.
    pub fn status(self) -> u8
        ensures { result ≡ status_of self }
    {
        match self {
            Ending::Ended => 0,
            Ending::Refused(_) => 2,
            Ending::SourceFault => 3,
            Ending::SinkFault => 4,
            Ending::OutOfMemory => 5,
            Ending::Spent => 6,
            Ending::TableFault => 7,
        }
    }
}
