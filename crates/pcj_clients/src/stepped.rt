ghost use Rattle.std.specs.Prelude.{◌≡◌, ◌<◌, ◌-◌, ◌^◌, Err, true, IfOk, OnOk, OnErr};
ghost use Rattle.pcj_txn.specs.declared.error.TxnError.TheVariants as txn_error;
ghost use Rattle.pcj_clients.specs.Steps.{goes_on, had_memory, no_steps, with_told};

use pcj_client::JobEvent;
use pcj_term::Memory;
use pcj_txn::TxnError;

/// How the steps of a command end.
#[derive(Clone, Copy)]
pub enum StepsEnd {
    /// All that were asked for were made, and the job goes on.
    AllMade,
    /// The client has no job.
    Nothing,
    /// All that the job writes is written, and it has ended.
    Done,
    /// Another transaction was in the way, and the job has ended without a commit.
    Aborted,
    /// The name was taken before, and the job has ended.
    Taken,
    /// A call of the table failed. The job stands as before that step.
    Fault,
    /// The step would draw 2^48. The job stands as before it.
    Spent,
}

/// What the steps of a command came to.
#[derive(Clone, Copy)]
pub struct Stepped {
    /// The timestamp of the job's commit, where one of the steps made it.
    pub commit: Option<u64>,
    /// How they end.
    pub end: StepsEnd,
    /// How many were tried, a failed one too.
    pub count: u64,
}

impl Stepped {
    /// None was tried yet.
    pub(crate) fn none() -> Stepped
        ensures { result ≡ no_steps }
    {
        Stepped {
            commit: None,
            end: StepsEnd::AllMade,
            count: 0,
        }
    }

    /// Takes in what one more step came to, and answers whether the next one may follow.
    pub(crate) fn take_in(
        &mut self,
        told: Result<Option<JobEvent>, TxnError>,
    ) -> Result<bool, Memory>
        requires { self.old.count < 2 ^ 64 - 1 }
        ensures taken { self.new ≡ with_told self.old told }
        ensures goes { IfOk result (λ goes. goes ≡ goes_on told) }
        ensures had { OnOk result (had_memory told ≡ true) }
        ensures memory { OnErr result (told ≡ Err txn_error.Memory) }
    {
        let end = match told {
            Ok(Some(JobEvent::Worked)) => None,
            Ok(Some(JobEvent::Committed(commit))) => {
                self.commit = Some(commit);
                None
            }
            Ok(Some(JobEvent::Done)) => Some(StepsEnd::Done),
            Ok(Some(JobEvent::Aborted)) => Some(StepsEnd::Aborted),
            Ok(Some(JobEvent::Taken)) => Some(StepsEnd::Taken),
            Ok(None) => {
                self.end = StepsEnd::Nothing;
                return Ok(false);
            }
            Err(TxnError::Failed) => Some(StepsEnd::Fault),
            Err(TxnError::Spent) => Some(StepsEnd::Spent),
            Err(TxnError::Memory) => return Err(Memory),
        };
        self.count += 1;
        let Some(end) = end else {
            return Ok(true);
        };
        self.end = end;
        Ok(false)
    }
}
