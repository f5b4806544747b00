ghost use Rattle.pcj_jobs.specs.Laws.{AllEndKnown, BesideKnown, EndsKnown, OpensKnown, PlainStaysKnown};

/// A job that begins is known, one that ends is known no more, and a draw changes nothing that is known.
pub fn jobs_begin_and_end()
    ensures plain { PlainStaysKnown }
    ensures opens { OpensKnown }
    ensures ends { EndsKnown }
    ensures all_end { AllEndKnown }
{}

/// What is known stays true beside somebody who commits nothing.
pub fn others_step_beside()
    ensures { BesideKnown }
{}
