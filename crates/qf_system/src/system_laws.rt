ghost use Rattle.qf_system.specs.SystemsMade.{RowSystemsAreSmall};

/// Every number that comes up as a row's system is used over the hull of a box is within 2^58, where the hulls over the box
/// and over the root box are modest.
pub fn row_systems_are_small()
    ensures { RowSystemsAreSmall }
{}
