use crate::failure::Failure;
use crate::mix::{ROUNDS, printed_terms};
use crate::rate::Rate;
use pcj_key::{join_parts, split_parts};
use pcj_term::Bytes;
use std::alloc::Global;
use std::time::{Clock, Instant};

/// How fast a key is split into printed terms, in bytes of the key.
pub fn measure_split(clock: &impl Clock, alloc: Global) -> Result<Rate, Failure> {
    let parts = printed_terms(alloc)?;
    split_rounds(clock, alloc, &join_parts(alloc, &parts)?)
}

fn split_rounds(clock: &impl Clock, alloc: Global, key: &Bytes) -> Result<Rate, Failure> {
    let begun = Instant::now(clock)?;
    let mut bytes: u64 = 0;
    for _ in 0..ROUNDS {
        if split_parts(alloc, key.as_slice())?.is_some() {
            bytes = bytes.saturating_add(key.len() as u64);
        }
    }
    let time = begun.elapsed(clock)?;
    Ok(Rate { bytes, time })
}
