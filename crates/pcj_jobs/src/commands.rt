ghost use Rattle.pcj_jobs.specs.Laws.{NumbersNeverFall, ShortAgrees, SpentAgrees, StepsAgree};

/// The steps of a command are answered as the job allows of which so much is known, and the state behind the answer is true. So is
/// what is left where the last of them would draw 2^48, or where there was no memory for it.
pub fn commands_agree()
    ensures steps { StepsAgree }
    ensures spent { SpentAgrees }
    ensures short { ShortAgrees }
    ensures numbers { NumbersNeverFall }
{}
