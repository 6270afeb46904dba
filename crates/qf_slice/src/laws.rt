ghost use Rattle.qf_slice.specs.Laws.{RootBoxesAreEqual, SlicingLosesNoRepair, RootBoxHasTheLeastRepair, RootBoxMissesNoRepair, SliceIsTheRootBox};

/// A problem has only one root box. Like the other laws it holds of the definitions, and the call does nothing.
pub fn root_box_is_one()
    ensures { RootBoxesAreEqual }
{}

/// Where a point of the domains repairs, the point with its values at the needed parameters and the old constants elsewhere
/// lies in the root box, repairs, and is that point or better.
pub fn slicing_loses_no_repair()
    ensures { SlicingLosesNoRepair }
{}

/// The least repair of the root box is the least repair of the domains.
pub fn least_repair_is_in_the_root_box()
    ensures { RootBoxHasTheLeastRepair }
{}

/// Nothing in the root box repairs exactly where nothing in the domains does.
pub fn no_repair_outside_the_root_box()
    ensures { RootBoxMissesNoRepair }
{}

/// The box that `Domains::slice` makes from the needed set is the root box.
pub fn slice_is_the_root_box()
    ensures { SliceIsTheRootBox }
{}
