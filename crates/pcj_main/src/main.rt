//! The program `pcj`.
//!
//! `pcj replay` reads a script on standard input, carries out its commands one after the other, and
//! writes their transcript on standard output. The work is all in the library's top call, which is
//! generic over where the script comes from, where the transcript goes, and the table that keeps the
//! triples. This crate gives it standard input, standard output, an empty table in memory, and the
//! words of the command line.
//!
//! Both streams are read and written without a buffer of the program's own: the top call reads the
//! script in large pieces and hands over each command's lines in one write, so that what is written
//! stands before the next command begins. Nothing is left to flush when it ends, and an error of a
//! stream is met by the call that had it.
//!
//! The statuses that the process ends with are those of the top call:
//!
//! | Status | What ended the run |
//! |---|---|
//! | 0 | the end of the script |
//! | 2 | a line of the script that was refused, or words that are no command |
//! | 3 | standard input, which failed: what of the script stood whole in what was read was carried out |
//! | 4 | standard output, which failed |
//! | 5 | memory, which ran out |
//! | 6 | the timestamps, of which none is left |
//! | 7 | the table, which couldn't be looked at before the first command: one in memory can |
//!
//! This crate adds two cases, both before the script is read. Where memory runs out while the words
//! are collected, the status is 5 and nothing is written. A word that isn't UTF-8 is a word of no
//! command: a line on standard error says so, and the run is that of no words at all, which writes
//! the usage line and ends with 2.
//!
//! For each of the statuses 3 to 7, and for words that are no command, a line on standard error says
//! what happened. For a refused line of the script the transcript's last line says it.
//!
//! What standard input gives and standard output takes is outside every contract. The library's
//! clauses speak of any source, any sink and any table, and are proved there; what is proved here is
//! that each call meets the library's conditions, and that the program ends.
#![tactic(auto)]

use pcj_io::{StdSink, StdSource};
use pcj_pages::PageTable;
use pcj_replay::{is_replay, replay};
use pcj_term::Items;
use std::alloc::AllocError;
use std::env;
use std::env::Env;
use std::io::ErrorKind;
use std::process::ExitCode;

/// The status where memory runs out, also before the script is read.
const OUT_OF_MEMORY: u8 = 5;

/// The words of the command line after the program's name. Where one of them isn't UTF-8, standard
/// error is told so, and there are none, as the words are then no command: the status is 2.
fn command_words(rt: &(impl Env + Eprint + AllocGlobal)) -> Result<Vec<String>, AllocError> {
    match env::args(rt) {
        Ok(words) => words.skip(1).collect(rt.alloc()),
        Err(error) if error.kind() == ErrorKind::OutOfMemory => Err(AllocError),
        Err(_) => {
            // where standard error fails too, the usage line and the status still tell
            let _ = eprintln!(rt; "pcj: an argument is not UTF-8");
            Ok(Vec::new(rt.alloc()))
        }
    }
}

/// What standard error is told of how a run ended. A run to the script's end needs no word, nor does a
/// line of the script that was refused, since the transcript names it.
fn complaint(status: u8, is_command: bool) -> Option<&'static str> {
    match status {
        2 if !is_command => Some(
            "these words are no command; the usage line names those there are",
        ),
        3 => Some("standard input failed: the commands before that were carried out"),
        4 => Some("standard output failed: the transcript is cut off"),
        OUT_OF_MEMORY => Some("memory ran out: the transcript may be cut off"),
        6 => Some("no timestamp is left: the script was carried out up to the line `spent`"),
        7 => Some("the table failed before the first command: nothing was carried out"),
        _ => None,
    }
}

fn main(rt: HostRuntime) -> ExitCode {
    let (status, is_command) = match command_words(&rt) {
        Ok(words) => {
            let mut source = StdSource::new(rt.stdin());
            let mut sink = StdSink::new(rt.stdout());
            // none of its calls is to fail
            let mut table = PageTable::new(rt.alloc(), Items::new(rt.alloc()));
            let status = replay(rt.alloc(), &words, &mut source, &mut sink, &mut table);
            (status, is_replay(&words))
        }
        Err(AllocError) => (OUT_OF_MEMORY, true),
    };
    if let Some(text) = complaint(status, is_command) {
        // where standard error fails too, the status still tells
        let _ = eprintln!(rt; "pcj: {text}");
    }
    ExitCode::from(status)
}
