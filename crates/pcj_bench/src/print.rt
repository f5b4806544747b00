use crate::failure::Failure;
use crate::mix::{ROUNDS, mixed_terms};
use crate::rate::Rate;
use pcj_term::{Term, print_term};
use std::alloc::Global;
use std::time::{Clock, Instant};

/// How fast terms are printed, in bytes of their printed forms.
pub fn measure_print(clock: &impl Clock, alloc: Global) -> Result<Rate, Failure> {
    let terms = mixed_terms(alloc)?;
    print_rounds(clock, alloc, &terms)
}

fn print_rounds(clock: &impl Clock, alloc: Global, terms: &[Term]) -> Result<Rate, Failure> {
    let begun = Instant::now(clock)?;
    let mut bytes: u64 = 0;
    for _ in 0..ROUNDS {
        bytes = bytes.saturating_add(print_each(alloc, terms)?);
    }
    let time = begun.elapsed(clock)?;
    Ok(Rate { bytes, time })
}

/// Prints each term once, and counts the bytes.
fn print_each(alloc: Global, terms: &[Term]) -> Result<u64, Failure> {
    let mut bytes: u64 = 0;
    for term in terms {
        bytes = bytes.saturating_add(print_term(alloc, term)?.len() as u64);
    }
    Ok(bytes)
}
