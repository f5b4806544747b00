ghost use Rattle.std.specs.Prelude.{◌≡◌, ◌++◌, IfOk, OnOk};
ghost use Rattle.pcj_replay.specs.Input.{IsReadFrom, TellsSourceFault};

use pcj_io::Source;
use pcj_term::Memory;
use std::alloc::Global;

/// The most bytes that a script may have: 64 MiB.
const SCRIPT_LIMIT: usize = 67_108_864;

/// How many bytes are asked for at a time.
const PIECE: usize = 16_384;

/// Where what was read of a script stops.
#[derive(Clone, Copy, PartialEq, Eq)]
pub(crate) enum InputEnd {
    /// At its end.
    AtEnd,
    /// At the limit: there is a byte past it.
    AtLimit,
    /// Somewhere else, since a read failed.
    AtFault,
}

/// The bytes that were read of a script, up to the limit.
#[derive(Drop)]
pub(crate) struct Input {
    pub(crate) bytes: Vec<u8>,
    pub(crate) end: InputEnd,
}

impl Input {
    /// Reads a source to its end, to a byte past the limit, or to a fault.
    pub(crate) fn read<S: Source>(alloc: Global, source: &mut S) -> Result<Input, Memory>
        ensures read { IfOk result (IsReadFrom (S.left source.old)) }
        ensures fault { IfOk result (TellsSourceFault (S.faults source.old) (S.faults source.new)) }
    {
        let mut bytes = Vec::new(alloc);
        let mut piece = [0u8; PIECE];
        while bytes.len() <= SCRIPT_LIMIT {
            let Ok(count) = source.read(&mut piece) else {
                return Ok(Input::ending(bytes, InputEnd::AtFault));
            };
            if count == 0 {
                return Ok(Input::ending(bytes, InputEnd::AtEnd));
            }
            append(&mut bytes, &piece[..count])?;
        }
        bytes.truncate(SCRIPT_LIMIT);
        Ok(Input::ending(bytes, InputEnd::AtLimit))
    }

    fn ending(bytes: Vec<u8>, end: InputEnd) -> Input
        ensures bytes { result.bytes.items ≡ bytes.items }
        ensures end { result.end ≡ end }
    {
        Input { bytes, end }
    }
}

/// Adds a piece at the end.
fn append(bytes: &mut Vec<u8>, piece: &[u8]) -> Result<(), Memory>
    ensures { OnOk result (bytes.new.items ≡ bytes.old.items ++ piece.now) }
{
    bytes.extend_from_slice(piece)?;
    Ok(())
}
