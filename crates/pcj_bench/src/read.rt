use crate::failure::Failure;
use crate::mix::{ROUNDS, printed_terms};
use crate::rate::Rate;
use pcj_term::{Bytes, read_term};
use std::alloc::Global;
use std::time::{Clock, Instant};

/// How fast terms are read, in bytes of their printed forms.
pub fn measure_read(clock: &impl Clock, alloc: Global) -> Result<Rate, Failure> {
    let texts = printed_terms(alloc)?;
    read_rounds(clock, alloc, &texts)
}

fn read_rounds(clock: &impl Clock, alloc: Global, texts: &[Bytes]) -> Result<Rate, Failure> {
    let begun = Instant::now(clock)?;
    let mut bytes: u64 = 0;
    for _ in 0..ROUNDS {
        bytes = bytes.saturating_add(read_each(alloc, texts)?);
    }
    let time = begun.elapsed(clock)?;
    Ok(Rate { bytes, time })
}

/// Reads each text once, and counts the bytes of those that are terms.
fn read_each(alloc: Global, texts: &[Bytes]) -> Result<u64, Failure> {
    let mut bytes: u64 = 0;
    for text in texts {
        if read_term(alloc, text.as_slice())?.is_some() {
            bytes = bytes.saturating_add(text.len() as u64);
        }
    }
    Ok(bytes)
}
