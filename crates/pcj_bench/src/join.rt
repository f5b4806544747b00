use crate::failure::Failure;
use crate::mix::{ROUNDS, printed_terms};
use crate::rate::Rate;
use pcj_key::join_parts;
use pcj_term::Bytes;
use std::alloc::Global;
use std::time::{Clock, Instant};

/// How fast printed terms are joined into a key, in bytes of the key.
pub fn measure_join(clock: &impl Clock, alloc: Global) -> Result<Rate, Failure> {
    let parts = printed_terms(alloc)?;
    join_rounds(clock, alloc, &parts)
}

fn join_rounds(clock: &impl Clock, alloc: Global, parts: &[Bytes]) -> Result<Rate, Failure> {
    let begun = Instant::now(clock)?;
    let mut bytes: u64 = 0;
    for _ in 0..ROUNDS {
        bytes = bytes.saturating_add(join_parts(alloc, parts)?.len() as u64);
    }
    let time = begun.elapsed(clock)?;
    Ok(Rate { bytes, time })
}
