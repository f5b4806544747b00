ghost use Rattle.pcj_jobs.specs.Laws.{FaultAgrees, StepAgrees};

/// A step of a job tells what may be told of it, and what is known behind it is true. So it is behind one that fails.
pub fn steps_agree()
    ensures step { StepAgrees }
    ensures fault { FaultAgrees }
{}
