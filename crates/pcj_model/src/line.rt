use crate::event::Event;
use pcj_script::ScriptError;

/// A line of a transcript.
#[derive(Clone, Copy)]
pub enum Line<'a> {
    /// What a client's command or step came to. Clients have numbers from 1 to 64.
    Client { client: u8, event: Event<'a> },
    /// All clients and the oracle were crashed.
    AllCrashed,
    /// The oracle was crashed.
    OracleCrashed,
    /// How many notifications stand, and how many locks.
    Status { notifications: u64, locks: u64 },
    /// A call of the table failed as notifications and locks were counted.
    StatusFault,
    /// A row of an answer: its printed terms, joined by TAB.
    Row(&'a [u8]),
    /// How many rows an answer has.
    Rows(usize),
    /// No query has the name.
    NoQuery(&'a [u8]),
    /// A call of the table failed as an answer was read.
    AnswersFault,
    /// A text that was to be scanned is refused: the byte of its fault, and the number of the fault's kind.
    ScanRefused { place: u64, kind: u8 },
    /// A call of the table failed as a query was scanned.
    ScanFault,
    /// All timestamps below 2^48 were granted.
    Spent,
    /// A line of the script is refused.
    Script(ScriptError),
}
