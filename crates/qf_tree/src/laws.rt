//! What valid steps, trees and certificates show. Each law is the contract of a function that does nothing.

ghost use Rattle.qf_tree.specs.Certificates.{CertificatesAreSound, RegionsAreSound, BadLinesAreFound};
ghost use Rattle.qf_tree.specs.Sizes.{TreesAreSmall};
ghost use Rattle.qf_tree.specs.Refutations.{RefutationsAreSound, LinesAreRefutations, ProbesRefute};

/// Where steps refute bounds, no values within the bounds satisfy the system.
pub fn refutations_are_sound()
    ensures { RefutationsAreSound }
{}

/// Line by line, steps are right exactly where they are one refutation.
pub fn lines_are_refutations()
    ensures { LinesAreRefutations }
{}

/// Two cases that both end empty refute.
pub fn probes_refute()
    ensures { ProbesRefute }
{}

/// A certificate that has a spelling has no bad line exactly where it is valid.
pub fn bad_lines_are_found()
    ensures { BadLinesAreFound }
{}

/// A certificate that is valid over the root box is true: its repair is the least one, its `Nothing` means that no point
/// of the domains repairs, and under `Budget` and `Best` no repair costs less than its least open key.
pub fn certificates_are_sound()
    ensures { CertificatesAreSound }
{}

/// A certificate that is valid over a region in the root box speaks of the region's repairs: its repair is the best of
/// them or better than all of them, its `Nothing` means that there are none, and under `Budget` and `Best` none costs
/// less than its least open key.
pub fn regions_are_sound()
    ensures { RegionsAreSound }
{}

/// A tree over a box has no more leaves than the box has points, and so, with an open leaf, at most twice as many split
/// and refuted boxes less two.
pub fn trees_are_small()
    ensures { TreesAreSmall }
{}
