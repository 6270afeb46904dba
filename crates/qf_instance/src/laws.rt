ghost use Rattle.qf_instance.specs.Laws.{InstancesExist, MarksMakeInstances, InstancesAreOne, InstancesAreFaithful, ValidCertificatesAreTrue, ValidRegionsAreTrue, RowsAreOfTheInstance, RootBoxesSpan, BoxesHold, BoxesHalve, BoundsKeepFit, WitnessesLeaveOpen};
ghost use Rattle.qf_instance.specs.Leanness.{LeannessIsOne};

/// The root box of a problem and the set of its needed parameters make an instance. Like the other laws it holds of the
/// definitions, and the call does nothing.
pub fn instances_exist()
    ensures { InstancesExist }
{}

/// So do the root box and the list of marks of the needed parameters.
pub fn marks_make_instances()
    ensures { MarksMakeInstances }
{}

/// A problem has only one instance.
pub fn instances_are_one()
    ensures { InstancesAreOne }
{}

/// All that the claims of certificates rest on holds of a sound problem's instance.
pub fn instances_are_faithful()
    ensures { InstancesAreFaithful }
{}

/// Where a certificate is valid over the root box, its claim holds of the problem.
pub fn valid_certificates_are_true()
    ensures { ValidCertificatesAreTrue }
{}

/// Where a certificate is valid over a region in the root box, its claim holds of the region's repairs.
pub fn valid_regions_are_true()
    ensures { ValidRegionsAreTrue }
{}

/// What is made for a row has the instance's system, and its circuit the instance's hulls.
pub fn rows_are_of_the_instance()
    ensures { RowsAreOfTheInstance }
{}

/// The root box lies in the domains, and none of its intervals is empty.
pub fn root_boxes_span()
    ensures { RootBoxesSpan }
{}

/// The points of a box in another lie in the other.
pub fn boxes_hold()
    ensures { BoxesHold }
{}

/// The halves of a box in another, cut inside, lie in the other too, and none of their intervals is empty.
pub fn boxes_halve()
    ensures { BoxesHalve }
{}

/// A system that can be used over bounds can be used over them after a bound is taken, unless they are empty then.
pub fn bounds_keep_fit()
    ensures { BoundsKeepFit }
{}

/// A certificate is valid, or lean, for the problem exactly where it is so for any instance of the problem; the complained
/// rows of a lean one, and the first row that misses its goal, are the problem's.
pub fn leanness_is_one()
    ensures { LeannessIsOne }
{}

/// Where a row meets its goal at a point of the root box, the row closes no box that the point lies in: its own values there
/// satisfy its system. So one replay shows that a box is not closable by the row, and no sweep is needed.
pub fn witnesses_leave_open()
    ensures { WitnessesLeaveOpen }
{}
