//! What is true of all records that a portal starts with.

ghost use Rattle.portal_start.specs.Laws.{VersionsOpenAlike};

/// Records that have the same documents and entries open the same state, of
/// whichever version they are.
pub fn versions_open_alike()
    ensures { VersionsOpenAlike }
{}
