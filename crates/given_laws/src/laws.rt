//! The laws. Each function does nothing; its contract is the law.

ghost use Rattle.given_laws.specs.Faulted.{FaultsChangeNothing, HistoriesGoWithoutFaults};
ghost use Rattle.given_laws.specs.OneGiven.{LawfulEntriesAreOne};

/// Over a tree that tells its files, two lawful entries of one seat and request in
/// which no device failed are equal, where the clock showed both the same moment
/// and the same words were to come.
pub fn lawful_entries_are_one()
    ensures { LawfulEntriesAreOne }
{}

/// An entry in which a device failed leaves the state that a Collect of its seat
/// leaves, and tells that a device failed. An Enter, a Leave and a Collect ask no
/// device.
pub fn faults_change_nothing()
    ensures { FaultsChangeNothing }
{}

/// A legal history with a Collect in the place of each entry in which a device
/// failed is legal, comes to the same state, and costs no more.
pub fn histories_go_without_faults()
    ensures { HistoriesGoWithoutFaults }
{}
