ghost use Rattle.pcj_script.specs.Laws.{HasOneFront, HasSomeFront, StandsWhateverFollows, GoesOnBehind, IsWrittenBack, HasOneReading, HasReading, CommandsStand};

/// All bytes are a script, and in exactly one way: its commands are settled, and the line that is refused, if any, with
/// its kind. So is what was read of a script that couldn't be read to its end: the commands that stand whole in it, and the
/// line that is refused, if any.
pub fn one_script()
    ensures same { HasOneReading }
    ensures some { HasReading }
{}

/// Exactly one thing stands at the front of some lines: nothing, a line that is skipped, a command, a command whose text
/// has no end, or a line that is refused.
pub fn one_front()
    ensures same { HasOneFront }
    ensures some { HasSomeFront }
{}

/// A script may be read piece by piece: what is told of a piece's front stands whatever follows (`stands`), behind it
/// stand the lines that follow (`behind`), and no byte is in no line (`written`). So the commands that stand whole in what
/// was read are those with which the script begins, and a line that is refused there is refused in it (`commands`).
pub fn pieces_agree()
    ensures stands { StandsWhateverFollows }
    ensures behind { GoesOnBehind }
    ensures written { IsWrittenBack }
    ensures commands { CommandsStand }
{}
