//! Worked examples of requests on nodes, computed by the checker over the
//! definitions alone.
//!
//! Each function does nothing; its contract is the example. What is expected
//! is worked out by hand, so that a wrong definition does not meet it.

ghost use Rattle.portal_model.specs.FileExamples.{
  Creating,
  HandlesOutlive,
  HostView,
  Listing,
  NumbersOfHandles,
  OlderHandles,
  Writing,
};

/// What was opened is read after the rights are revoked, and isn't opened
/// again.
pub fn older_handles_keep_their_rights()
    ensures { OlderHandles }
{}

/// A handle outlives its document, until it is released.
pub fn handles_outlive_their_documents()
    ensures { HandlesOutlive }
{}

/// A write behind the end fills the gap, one past the limit is refused, and one
/// of no bytes changes nothing.
pub fn writes_at_and_behind_the_end()
    ensures { Writing }
{}

/// The caller's root lists what the caller sees, a document's folder its file.
pub fn folders_list_what_is_seen()
    ensures { Listing }
{}

/// Each connection numbers its own handles, and may have so many open.
pub fn connections_number_their_handles()
    ensures { NumbersOfHandles }
{}

/// The file of a document is made in its folder, by its name, where nothing is.
pub fn files_are_made_in_their_folders()
    ensures { Creating }
{}

/// The host sees the views of all applications, and an application its own.
pub fn the_host_sees_each_view()
    ensures { HostView }
{}
