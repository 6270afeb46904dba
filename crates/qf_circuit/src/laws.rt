ghost use Rattle.qf_circuit.specs.HullLaws.{ValuesAreTheOnlyOnes, HullsHold, PointHullsAreValues, PointHullsFitValues};

/// A circuit's values keep every definition, and no others do.
pub fn values_are_the_only_ones()
    ensures { ValuesAreTheOnlyOnes }
{}

/// A circuit's hull over a box holds its values at every point of the box.
pub fn hulls_hold()
    ensures { HullsHold }
{}

/// A circuit's hull over the box of one point is its values at that point.
pub fn point_hulls_are_values()
    ensures { PointHullsAreValues }
{}

/// Where a circuit's hull over the box of one point can be made, so can its values at that point.
pub fn point_hulls_fit_values()
    ensures { PointHullsFitValues }
{}
