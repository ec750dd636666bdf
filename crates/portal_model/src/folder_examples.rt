//! Worked examples of a folder that is a document, computed by the checker over
//! the definitions alone.
//!
//! Each function does nothing; its contract is the example. What is expected
//! is worked out by hand, so that a wrong definition does not meet it.

ghost use Rattle.portal_model.specs.FolderExamples.{NamesBelow, NotBelow};

/// What lies below an exported folder is numbered as a connection names it.
pub fn names_below_an_exported_folder()
    ensures { NamesBelow }
{}

/// What isn't seen there, and what isn't done.
pub fn what_is_not_done_below_it()
    ensures { NotBelow }
{}
