ghost use Rattle.qf_point.specs.Least.{AtMostOneIsLeast};

/// Of the points of a box that repair, whatever it is to repair, at most one is least: two that are not worse than any other
/// are one.
pub fn at_most_one_is_least()
    ensures { AtMostOneIsLeast }
{}
