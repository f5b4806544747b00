ghost use Rattle.std.specs.Prelude.{◌≡◌};
ghost use Rattle.pcj_script.specs.Kind.{number_of};

/// What is wrong with a line of a script: the first of these that applies, in the order of `TooMuch`, `TooLong`,
/// `UnknownCommand`, the words from left to right, and `MissingEnd`.
#[derive(Clone, Copy)]
pub enum ScriptKind {
    /// The first word is no command, or no form of the command has so many words.
    UnknownCommand,
    /// A word in an actor's place is none that the form allows.
    BadActor,
    /// A word in a number's place isn't 1 to 7 digits that write a number from 1 to 1,000,000.
    BadNumber,
    /// A word in a name's place is no name.
    BadName,
    /// The command's text has no `end` before the end of the script.
    MissingEnd,
    /// A command line of more than 1,024 bytes, or the line on which a text passes 16,777,216 bytes.
    TooLong,
    /// The line of byte 67,108,865 of a script. `next_command` doesn't count a script's bytes, and never answers this.
    TooMuch,
}

/// The line of a script that is refused.
#[derive(Clone, Copy)]
pub struct ScriptError {
    /// Its number. Lines count from 1, those that are skipped too.
    pub line: u64,
    /// What is wrong with it.
    pub kind: ScriptKind,
}

/// The number by which transcripts name a kind: 1 to 7, in the order of the variants.
pub fn script_number(kind: ScriptKind) -> u8
    ensures { result ≡ number_of kind }
{
    match kind {
        ScriptKind::UnknownCommand => 1,
        ScriptKind::BadActor => 2,
        ScriptKind::BadNumber => 3,
        ScriptKind::BadName => 4,
        ScriptKind::MissingEnd => 5,
        ScriptKind::TooLong => 6,
        ScriptKind::TooMuch => 7,
    }
}
