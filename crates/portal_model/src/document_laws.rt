//! Laws of the requests on documents, for the crates that stand on the
//! definitions.
//!
//! Each function does nothing; its contract is the law.

ghost use Rattle.portal_model.specs.DocumentLaws.{
  AllowedIsDone,
  LooksAreTaken,
  RefusalsKeep,
  RefusedEntriesKeep,
};

/// A refusal leaves documents, rights, applications, files and entries as they
/// were, and the connections but for the presented files that an Add takes: they
/// stay where a device failed, and have left the queue where it is refused otherwise.
pub fn refusals_keep_documents()
    ensures { RefusalsKeep }
{}

/// An entry that is refused, of whatever kind, leaves documents, rights,
/// applications, files and entries as they were.
pub fn refused_entries_keep_documents()
    ensures { RefusedEntriesKeep }
{}

/// Over a tree that tells its files, a lawful entry in which no device failed
/// has the looks that it takes there, and no others.
pub fn looks_are_those_taken()
    ensures { LooksAreTaken }
{}

/// A lawful entry that asks what its seat may ask is done, where no device
/// fails and no limit is met: an Add and a CREATE over a tree that tells its
/// files, all else over any tree.
pub fn what_is_allowed_is_done()
    ensures { AllowedIsDone }
{}
