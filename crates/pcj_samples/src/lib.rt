//! Cases that neither a script nor a single call shows: faults in mid-stream and what they leave, walks and mutations of
//! a table, oracles after crashes. README.md says how one is added.
//!
//! What speaks of a table is generic over `RowTable`: `mem_table` runs it over a vector in memory, and `page_table` over
//! pages. Another table gets one more such file.
#![tactic(auto)]

#[cfg(test)]
mod adapters;
#[cfg(test)]
mod change;
#[cfg(test)]
mod clock;
#[cfg(test)]
mod copies;
#[cfg(test)]
mod failing;
#[cfg(test)]
mod faults;
#[cfg(test)]
mod mem_oracles;
#[cfg(test)]
mod mem_scripts;
#[cfg(test)]
mod mem_table;
#[cfg(test)]
mod mutations;
#[cfg(test)]
mod notifications;
#[cfg(test)]
mod oracles;
#[cfg(test)]
mod page_scripts;
#[cfg(test)]
mod page_table;
#[cfg(test)]
mod pages;
#[cfg(test)]
mod rows;
#[cfg(test)]
mod scripts;
#[cfg(test)]
mod streams;
#[cfg(test)]
mod told;
#[cfg(test)]
mod walks;
