ghost use Rattle.qf_rows.specs.Encoding.{DefinitionsMatch, CircuitsMatch};
ghost use Rattle.qf_rows.specs.Systems.{SystemsAreSmall, SystemsAreWellFormed};

/// Within the hull, the inequalities of a definition hold exactly where its variable has its value.
pub fn definitions_match()
    ensures { DefinitionsMatch }
{}

/// Within its hull, a circuit's own values alone satisfy its inequalities.
pub fn circuits_match()
    ensures { CircuitsMatch }
{}

/// The inequalities of a circuit name variables that exist, each once and with a factor that is not 0, and there are fewer
/// than 2^32.
pub fn systems_are_well_formed()
    ensures { SystemsAreWellFormed }
{}

/// Where the hulls of a circuit over two boxes, and its sums there, are within 2^57 in size, every number that comes up as
/// the inequalities made for the one box are used over the other is within 2^58.
pub fn systems_are_small()
    ensures { SystemsAreSmall }
{}
