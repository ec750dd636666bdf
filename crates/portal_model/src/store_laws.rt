//! Laws of the permission store, for the crates that stand on it.
//!
//! Each function does nothing; its contract is the law.
//!
//! Source: D-Bus Specification, "Marshaling (Wire Format)".

ghost use Rattle.portal_model.specs.StoreLaws.{DataAreSpelled, EntriesHaveRecords};

/// A value passes the test of data exactly where bytes spell it in a variant,
/// and no handle is in it. It counts as many bytes as these.
pub fn data_are_spelled()
    ensures { DataAreSpelled }
{}

/// An entry is valid exactly where its record has its data and can be told,
/// and its texts have no zero byte; and what is read of a record is its entry.
pub fn entries_have_records()
    ensures { EntriesHaveRecords }
{}
