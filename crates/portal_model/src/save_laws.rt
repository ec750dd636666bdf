//! Laws of saving by rename, for the crates that stand on the definitions.
//!
//! Each function does nothing; its contract is the law.

ghost use Rattle.portal_model.specs.SaveLaws.{RenameSaves, RenamesKeep};

/// After a rename onto a document's name that is done, the document's path has
/// what the temporary held.
pub fn renames_save()
    ensures { RenameSaves }
{}

/// Whatever is renamed, each open handle names the file that it named, and this
/// is unchanged.
pub fn renames_keep_open_files()
    ensures { RenamesKeep }
{}
