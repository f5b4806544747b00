use crate::failure::Failure;
use crate::rate::Rate;
use pcj_sparql::{QueryRefusal, read_query};
use std::alloc::Global;
use std::io::Read;
use std::time::{Clock, Instant};

/// How many bytes of queries are read at least.
const BYTES: u64 = 4_000_000;

/// How fast the query that a reader holds is read, in bytes of its text, though it may be refused at its last check.
pub fn measure_query<R: Read + Drop>(
    clock: &impl Clock,
    alloc: Global,
    mut reader: R,
) -> Result<Rate, Failure> {
    let mut text = Vec::new(alloc);
    reader.read_to_end(&mut text)?;
    read_rounds(clock, alloc, &text)
}

fn read_rounds(clock: &impl Clock, alloc: Global, text: &[u8]) -> Result<Rate, Failure> {
    let begun = Instant::now(clock)?;
    let mut bytes: u64 = 0;
    let size = (text.len() as u64).max(1);
    for _ in 0..BYTES.div_ceil(size) {
        read_once(alloc, text)?;
        bytes = bytes.saturating_add(size);
    }
    let time = begun.elapsed(clock)?;
    Ok(Rate { bytes, time })
}

fn read_once(alloc: Global, text: &[u8]) -> Result<(), Failure> {
    match read_query(alloc, text) {
        Ok(_) | Err(QueryRefusal::Refused(_)) => Ok(()),
        Err(QueryRefusal::Memory) => Err(Failure::Memory),
    }
}
