//! Worked examples of saving by rename, computed by the checker over the
//! definitions alone.
//!
//! Each function does nothing; its contract is the example. What is expected
//! is worked out by hand, so that a wrong definition does not meet it.

ghost use Rattle.portal_model.specs.SaveExamples.{NotSaved, Saving, Temporaries};

/// A file that is made beside the document's and renamed onto it is the
/// document's then, and a handle from before reads the older one.
pub fn a_file_is_saved_by_rename()
    ensures { Saving }
{}

/// What a connection makes in a document's folder under another name it sees
/// alone, and may rename and remove.
pub fn temporaries_in_a_folder()
    ensures { Temporaries }
{}

/// What isn't renamed, and what isn't made.
pub fn what_is_not_saved()
    ensures { NotSaved }
{}
