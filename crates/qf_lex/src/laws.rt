//! Laws of the definitions. The calls do nothing.

ghost use Rattle.qf_lex.specs.Laws.{EachLogHasOneReading, TokensStandInTheirLog};

/// Any bytes have either tokens or a first fault, and only one of these.
pub fn each_log_has_one_reading()
    ensures { EachLogHasOneReading }
{}

/// The tokens of a log lie one behind the other in its bytes, and the text of each is its slice.
pub fn tokens_stand_in_their_log()
    ensures { TokensStandInTheirLog }
{}
