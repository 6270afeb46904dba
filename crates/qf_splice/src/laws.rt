//! Laws of the definitions. The calls do nothing.

ghost use Rattle.qf_splice.specs.Laws.{RepairedLogsSayTheSame, UnchangedLogsStay};

/// The repaired text of a log says the same statements over the same names and texts, with the point as its constants.
pub fn repaired_logs_say_the_same()
    ensures { RepairedLogsSayTheSame }
{}

/// The repaired text of a log at its own constants is the log, byte by byte.
pub fn unchanged_logs_stay()
    ensures { UnchangedLogsStay }
{}
