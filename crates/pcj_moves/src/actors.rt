ghost use Rattle.pcj_moves.specs.ActorLaws.{TransactsStays, RecoversStays, HiddenStays, ReadsStay, ReadsPassCommit, HiddenRead, PrewriteGoesOn, DrawGoesOn, PrimaryGoesOn, SecondaryGoesOn, RollBackGoesOn, RollForwardGoesOn, LockIsOfWrite, LocksNamePrimary, MetIsOther, NextIsFree, NothingIsFree, RecoversUnlock, RecoversPrewrite, OfWriteNext, HiddenUnlock, HiddenUndrawn, HiddenDrawn, HiddenCommitted};

/// An act leaves the transactions and recoveries of other starts as they were, and what was read.
pub fn acts_leave_others()
    ensures transacts { TransactsStays }
    ensures recovers { RecoversStays }
    ensures hidden { HiddenStays }
    ensures reads { ReadsStay }
    ensures commit { ReadsPassCommit }
    ensures read { HiddenRead }
{}

/// The acts of a transaction take it on, and those of a recovery leave it what it may be.
pub fn acts_take_transactions_on()
    ensures lock { LockIsOfWrite }
    ensures names { LocksNamePrimary }
    ensures prewrite { PrewriteGoesOn }
    ensures draw { DrawGoesOn }
    ensures primary { PrimaryGoesOn }
    ensures secondary { SecondaryGoesOn }
    ensures back { RollBackGoesOn }
    ensures forward { RollForwardGoesOn }
{}

/// A lock that a transaction meets on a row that it hasn't prewritten, or where it writes nothing, is another's.
pub fn met_locks_are_of_others()
    ensures met { MetIsOther }
    ensures next { NextIsFree }
    ensures nothing { NothingIsFree }
{}

/// Recoveries of one start stay what they may be under each act of that start.
pub fn acts_leave_recoveries()
    ensures unlock { RecoversUnlock }
    ensures prewrite { RecoversPrewrite }
    ensures write { OfWriteNext }
{}

/// A transaction that writes rows that were read is committed above the reader's start, or was before the read.
pub fn writes_stay_hidden()
    ensures unlock { HiddenUnlock }
    ensures undrawn { HiddenUndrawn }
    ensures drawn { HiddenDrawn }
    ensures committed { HiddenCommitted }
{}
