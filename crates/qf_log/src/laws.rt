//! Laws of the definitions. The calls do nothing.

ghost use Rattle.qf_log.specs.Places.{PlacesSpellTheirConstants};
ghost use Rattle.qf_log.specs.Ready.{LogsAreReady};
ghost use Rattle.qf_log.specs.Trees.{LoweredSumsKeepTheirValue};

/// A log that was read has names, texts, statements and old constants as `Program::new` asks for them, and the literals of
/// its parameters stand one behind the other in its bytes.
pub fn logs_are_ready()
    ensures { LogsAreReady }
{}

/// The bytes of a log from the start to the end of each parameter's place are a numeral, a `-` or none and digits, that
/// reads as the parameter's old constant.
pub fn places_spell_their_constants()
    ensures { PlacesSpellTheirConstants }
{}

/// A sum of a log is worth the same in the program as it is written, in every row and for all values of its parameters: each
/// name its column's cell, each number in a product itself, each number alone the value of its parameter.
pub fn lowered_sums_keep_their_value()
    ensures { LoweredSumsKeepTheirValue }
{}
