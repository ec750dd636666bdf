//! What is true of all records.

ghost use Rattle.record_keeper.specs.Laws.{GoodEntriesAreHeld, KeptInOneWay, OneIsWrong};

/// One thing is wrong with records, or none.
pub fn records_are_judged_in_one_way()
    ensures { OneIsWrong }
{}

/// Records keep one list of entries of the permission store.
pub fn entries_are_kept_in_one_way()
    ensures { KeptInOneWay }
{}

/// The entries that good records keep are such as the tables hold: they differ,
/// and their rows stand in order.
pub fn good_records_keep_good_entries()
    ensures { GoodEntriesAreHeld }
{}
