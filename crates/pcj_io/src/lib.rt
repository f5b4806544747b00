//! Where bytes come from and where they go: the traits, forms in memory that fail on the calls that
//! they are told to, and adapters over std's readers and writers.
//!
//! A source means the bytes that are left in it and a sink the bytes that it took, where it tells them.
//! Each counts its faults, and answers `Failed` only where that count rose in the call, or stands at its
//! last value, 2^64 - 1.
#![tactic(auto)]

mod failing_calls;
mod mem_sink;
mod mem_source;
mod sink;
mod source;
mod std_sink;
mod std_source;

pub use failing_calls::FailingCalls;
pub use mem_sink::MemSink;
pub use mem_source::MemSource;
pub use sink::{Sink, SinkError, write_all};
pub use source::{Failed, Source};
pub use std_sink::StdSink;
pub use std_source::StdSource;
