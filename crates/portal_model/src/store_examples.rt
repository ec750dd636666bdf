//! Worked examples of calls of the permission store, computed by the checker
//! over the definitions alone.
//!
//! Each function does nothing; its contract is the example. What is expected
//! is worked out by hand, so that a wrong definition does not meet it.

ghost use Rattle.portal_model.specs.StoreExamples.{
  CostsOfCalls,
  Deletions,
  KeeperFaults,
  OrderOfRefusals,
  Readings,
  RowsThatGo,
};

/// Entries are looked up and listed, in byte order.
pub fn entries_are_read()
    ensures { Readings }
{}

/// What is deleted is told to each bus of the host, with what it had.
pub fn deletions_are_told()
    ensures { Deletions }
{}

/// A row goes, and one that isn't there is no fault.
pub fn rows_go_away()
    ensures { RowsThatGo }
{}

/// Where the keeper fails nothing is changed or told.
pub fn the_keeper_of_tables_fails()
    ensures { KeeperFaults }
{}

/// The kind of caller is looked at first, then the texts, the table, the entry.
pub fn calls_are_refused_in_order()
    ensures { OrderOfRefusals }
{}

/// A call costs its texts.
pub fn calls_cost_their_texts()
    ensures { CostsOfCalls }
{}
