ghost use Rattle.pcj_jobs.specs.Laws.{AllCrashAgree, BesideAgrees, CrashAgrees, DrawAgrees, LostAgrees, OpensAgrees};

/// A state stays true with a draw, with a job that begins, beside a reader, and with crashes of clients and of the oracle.
pub fn states_stay_true()
    ensures draw { DrawAgrees }
    ensures opens { OpensAgrees }
    ensures beside { BesideAgrees }
    ensures crash { CrashAgrees }
    ensures all_crash { AllCrashAgree }
    ensures lost { LostAgrees }
{}
