ghost use Rattle.pcj_model.specs.Laws.{StandApart, TextsTell, AreTold, RepliesTell, LoadsJoinWhole, QueriesJoin, NamesStayApart, CanBeAnswered, TranscriptsTell, PrintsTell, RunsGoOn, RunsHaveFronts, NothingIsLeft, TimestampsRise, EndsAreTold, EndsStand};

/// The lines of a print are the lines that were printed, one after another: no line has an LF inside, where no name and no
/// row has one.
pub fn lines_stand_apart()
    ensures { StandApart }
{}

/// A line can be told from its text, where no name has a blank and no row begins with a small letter.
pub fn texts_tell_lines()
    ensures { TextsTell }
{}

/// What the steps of a command came to can be told from its lines: whether the job was committed, with which number, and
/// what is left of the job.
pub fn steps_are_told()
    ensures { AreTold }
{}

/// What a command came to can be told from its lines: they leave one state.
pub fn replies_are_told()
    ensures { RepliesTell }
{}

/// No command changes the committed triples but a load's commit, with which all its triples join, and which is told.
pub fn loads_join_whole()
    ensures { LoadsJoinWhole }
{}

/// No command changes the queries but a registration's commit, with which its query joins at its place, and which is told
/// (`join`). No two queries come to have one name (`apart`).
pub fn queries_join()
    ensures join { QueriesJoin }
    ensures apart { NamesStayApart }
{}

/// Each command can be answered in each state, without a fault, while there are timestamps.
pub fn commands_are_answered()
    ensures { CanBeAnswered }
{}

/// What a run came to can be told from its lines alone, one after another (`lines`), and so from its print (`print`): which
/// of them answer which command, which loads and registrations are committed, and what is in flight.
pub fn transcripts_are_told()
    ensures lines { TranscriptsTell }
    ensures print { PrintsTell }
{}

/// A front of a run is a run, and from its end goes on the rest (`fronts`); and such two are a run (`go_on`).
pub fn runs_go_on()
    ensures go_on { RunsGoOn }
    ensures fronts { RunsHaveFronts }
{}

/// After a crash of all nothing is left of the jobs that were in flight: no triple joins before another load begins, and no query
/// before another registration.
pub fn crashed_jobs_are_gone()
    ensures { NothingIsLeft }
{}

/// The greatest timestamp that was told never falls, and is below 2^48.
pub fn timestamps_rise()
    ensures { TimestampsRise }
{}

/// Where a run was told whole, what is written settles the state that it leaves: the triples of its committed loads, and the
/// queries of its committed registrations.
pub fn endings_are_told()
    ensures { EndsAreTold }
{}

/// Where a run ended before its script was read to the end, by a refused line, a fault of the sink, want of memory or the last
/// timestamp, the rest of the script makes no difference: it is a run of the whole script.
pub fn endings_stand()
    ensures { EndsStand }
{}
