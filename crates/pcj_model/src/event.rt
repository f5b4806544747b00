/// What a client's command, or one of its steps, came to.
#[derive(Clone, Copy)]
pub enum Event<'a> {
    /// A load begins: its number, which is its start, and how many distinct triples its document has.
    Loaded { number: u64, triples: usize },
    /// A registration begins: its number, which is its start, and the query's name.
    Registered { number: u64, name: &'a [u8] },
    /// The client has a job in flight.
    Busy,
    /// The text is refused: at a line of a document or a byte of a query, and the number of the kind of fault.
    Refused { place: u64, kind: u8 },
    /// The job's transaction is committed, with this timestamp.
    Committed(u64),
    /// The job has ended.
    Done,
    /// The job has ended, for another one that came first.
    Aborted,
    /// The registration has ended, for a name that another one has.
    Taken,
    /// There is no job to make a step of.
    Nothing,
    /// A call of the table failed.
    Fault,
    /// How many steps were tried.
    Steps(u64),
    /// The job, if there was one, has ended where it stood.
    Crashed,
}
