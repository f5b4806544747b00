use std::fmt;
use std::time::Duration;

/// How many bytes were worked on, and how long that took.
#[derive(Clone, Copy)]
pub struct Rate {
    pub bytes: u64,
    pub time: Duration,
}

impl fmt::Display for Rate {
    fn fmt<W: fmt::Write>(&self, f: &mut fmt::Formatter<W>) -> fmt::Result {
        let scaled = u128::from(self.bytes).saturating_mul(1_000_000);
        match scaled.checked_div(self.time.as_micros()) {
            Some(rate) => write!(f, "{rate} bytes/s"),
            None => f.write_str("too fast to tell"),
        }
    }
}
