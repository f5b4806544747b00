ghost use Rattle.std.specs.Prelude.{◌≡◌, true, false, IfOk};
ghost use Rattle.std.specs.List.{list_any};
ghost use Rattle.pcj_term.specs.Order.{same_bytes};
ghost use Rattle.pcj_oracle.specs.Clock.{IsClock};
ghost use Rattle.pcj_moves.specs.Transactions.{are_distinct};

use crate::show::{show_actor, show_txn_error};
use crate::words::{number_of, range, write};
use pcj_actor::Actor;
use pcj_case_lines::{Answer, Unanswered};
use pcj_oracle::Oracle;
use pcj_table::{Plain, RowTable, Write};
use pcj_term::{Bytes, Items};
use std::alloc::Global;
use std::marker::Model;

/// An actor of a case, with the letter that it writes. Once it has its transaction it is asked for nothing more.
#[derive(Drop)]
pub(crate) struct Client {
    alloc: Global,
    letter: u8,
    actor: Actor,
    writes: bool,
}

impl Model for Client {
    ghost use Rattle.std.specs.Prelude.{◌≡◌, Bool, false};
    ghost use Rattle.pcj_step_cases.specs.Clients.{IsFree};

    ghost Value = { Bool };

    ghost view = { λ c. c.writes };

    ghost invariant = { λ c. c.writes ≡ false → IsFree c.actor };
}

impl Client {
    /// An actor of this start.
    pub(crate) fn new(alloc: Global, start: u64, letter: u8) -> Client {
        Client {
            alloc,
            letter,
            actor: Actor::new(alloc, start),
            writes: false,
        }
    }

    /// Asks for a read, a plain value or a transaction.
    pub(crate) fn ask(&mut self, out: &mut Answer, words: &[u8]) -> Result<(), Unanswered> {
        if self.writes {
            return Err(Unanswered::NoCase);
        }
        match words {
            [b'g', key] => self.get(*key)?,
            [b'n', after, end] => self.next(*after, *end)?,
            [b'p', key, digit] => self.put(*key, *digit)?,
            [b'w', keys @ ..] => self.write(keys)?,
            _ => return Err(Unanswered::NoCase),
        }
        out.word("asked")
    }

    fn get(&mut self, key: u8) -> Result<(), Unanswered>
        requires { self.old ≡ false }
    {
        self.actor.get(Bytes::from_slice(self.alloc, &[key])?);
        Ok(())
    }

    fn next(&mut self, after: u8, end: u8) -> Result<(), Unanswered>
        requires { self.old ≡ false }
    {
        self.actor.next(range(self.alloc, after, end)?);
        Ok(())
    }

    fn put(&mut self, key: u8, digit: u8) -> Result<(), Unanswered>
        requires { self.old ≡ false }
    {
        let plain = plain(self.alloc, number_of(digit), self.letter)?;
        self.actor
            .put(Bytes::from_slice(self.alloc, &[key])?, plain);
        Ok(())
    }

    fn write(&mut self, keys: &[u8]) -> Result<(), Unanswered>
        requires { self.old ≡ false }
    {
        let writes = distinct_writes(self.alloc, keys, self.letter)?;
        self.actor.write(writes);
        self.writes = true;
        Ok(())
    }

    /// Makes a step, and adds what it came to.
    pub(crate) fn step<T: RowTable>(
        &mut self,
        oracle: &mut Oracle,
        table: &mut T,
        out: &mut Answer,
    ) -> Result<(), Unanswered>
        requires { IsClock oracle.old (T.rows table.old) }
        ensures { IsClock oracle.new (T.rows table.new) }
    {
        match self.actor.step(table, oracle) {
            Ok(event) => show_actor(out, &event, self.actor.answers()),
            Err(error) => show_txn_error(out, error),
        }
    }
}

fn plain(alloc: Global, seq: u64, value: u8) -> Result<Plain, Unanswered> {
    Ok(Plain {
        seq,
        value: Some(Bytes::from_slice(alloc, &[value])?),
    })
}

/// Writes of rows, each with this value, where no row occurs twice.
fn distinct_writes(alloc: Global, keys: &[u8], value: u8) -> Result<Items<Write>, Unanswered>
    ensures { IfOk result (λ writes. are_distinct writes ≡ true) }
{
    let mut writes = Items::new(alloc);
    for key in keys.iter().rev() {
        let write = write(alloc, *key, value)?;
        if writes_row(writes.as_slice(), &write.key) {
            return Err(Unanswered::NoCase);
        }
        writes.insert(0, write)?;
    }
    Ok(writes)
}

/// Whether one of these writes is of this row.
fn writes_row(writes: &[Write], key: &Bytes) -> bool
    ensures { result ≡ list_any (λ write. same_bytes key.now write.key) writes.now }
{
    writes.iter().any(|write| *key == write.key)
}
