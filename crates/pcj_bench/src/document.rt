use crate::failure::Failure;
use crate::rate::Rate;
use pcj_ntriples::{NtRefusal, read_document};
use std::alloc::Global;
use std::io::Read;
use std::time::{Clock, Instant};

/// How often a document is read.
const ROUNDS: u64 = 20;

impl From<NtRefusal> for Failure {
    fn from(refusal: NtRefusal) -> Self {
        match refusal {
            NtRefusal::Refused(_) => Failure::Document,
            NtRefusal::Memory => Failure::Memory,
        }
    }
}

/// How fast the document that a reader holds is read, in bytes of its text.
pub fn measure_document<R: Read + Drop>(
    clock: &impl Clock,
    alloc: Global,
    mut reader: R,
) -> Result<Rate, Failure> {
    let mut text = Vec::new(alloc);
    reader.read_to_end(&mut text)?;
    read_rounds(clock, alloc, &text)
}

fn read_rounds(clock: &impl Clock, alloc: Global, text: &[u8]) -> Result<Rate, Failure> {
    let begun = Instant::now(clock)?;
    let mut bytes: u64 = 0;
    for load in 1..=ROUNDS {
        read_document(alloc, text, load)?;
        bytes = bytes.saturating_add(text.len() as u64);
    }
    let time = begun.elapsed(clock)?;
    Ok(Rate { bytes, time })
}
