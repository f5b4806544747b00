use crate::failure::Failure;
use crate::rate::Rate;
use pcj_script::{Front, next_command};
use std::alloc::Global;
use std::io::Read;
use std::time::{Clock, Instant};

/// How fast the commands of the script that a reader holds are found, in bytes of the script.
pub fn measure_script<R: Read + Drop>(
    clock: &impl Clock,
    alloc: Global,
    mut reader: R,
) -> Result<Rate, Failure> {
    let mut text = Vec::new(alloc);
    reader.read_to_end(&mut text)?;
    read_commands(clock, &text)
}

fn read_commands(clock: &impl Clock, text: &[u8]) -> Result<Rate, Failure> {
    let begun = Instant::now(clock)?;
    let bytes = bytes_used(text);
    let time = begun.elapsed(clock)?;
    Ok(Rate { bytes, time })
}

/// How many bytes stand before the script's end, or before the line that is refused.
fn bytes_used(text: &[u8]) -> u64 {
    let mut at = 0;
    let mut line: u64 = 1;
    loop {
        let (_, rest) = text.split_at(at);
        match next_command(rest, line, true) {
            Front::Got { used, lines, .. } => {
                at += used;
                line += lines;
            }
            Front::Skipped { used } => {
                at += used;
                line += 1;
            }
            Front::Refused(_) | Front::More | Front::End => return at as u64,
        }
    }
}
