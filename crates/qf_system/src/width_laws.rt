ghost use Rattle.qf_system.specs.PlainLogs.{SoundLogsArePlain};
ghost use Rattle.qf_system.specs.WidthsKept.{WidthsKeepCircuitsSmall};

/// Where no statement is too wide for some domains, every number that comes up for a row's circuit and its inequalities,
/// over a box of the domains, is small.
pub fn widths_keep_circuits_small()
    ensures { WidthsKeepCircuitsSmall }
{}

/// A sound program over a sound table is within the limits that keep its rows' circuits small.
pub fn sound_logs_are_plain()
    ensures { SoundLogsArePlain }
{}
