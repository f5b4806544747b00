/// Who is crashed.
#[derive(Clone, Copy)]
pub enum Crashed {
    /// The client with the number, from 1 to 64.
    Client(u8),
    /// All clients and the oracle.
    All,
    /// The oracle.
    Oracle,
}

/// A command of a script. Clients have numbers from 1 to 64. A name is a letter of ASCII, and then up to 63 letters,
/// digits, `_` or `-`. A document or a text is the bytes of some lines of the script, as they stand there.
#[derive(Clone, Copy)]
pub enum Command<'a> {
    /// Begins to load a document (RDF 1.1 N-Triples, section 7).
    Load {
        client: u8,
        document: &'a [u8],
    },
    /// Begins to register the query of a text (SPARQL 1.1 Query, section 4) under a name.
    Register {
        client: u8,
        name: &'a [u8],
        text: &'a [u8],
    },
    /// Lets a client make so many steps, from 1 to 1,000,000.
    StepClient {
        client: u8,
        count: u32,
    },
    /// Ends somebody's work where it stands.
    Crash(Crashed),
    /// Asks what is left to be done.
    Status,
    /// Asks for the answers of the query that has the name.
    Answers(&'a [u8]),
    /// Asks for the answers of the query of a text (SPARQL 1.1 Query, section 4), which needn't be registered.
    Scan {
        text: &'a [u8],
    },
}
