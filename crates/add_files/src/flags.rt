//! The flags of an addition.

ghost use Rattle.std.specs.Prelude.{◌≡◌};
ghost use Rattle.portal_model.specs.Add.{adding_rights};
ghost use Rattle.portal_model.specs.AddArguments.{are_flags, exports, is_as_needed, makes_strict, persists, reuses};

use portal_model::request::AddRequest;
use rights_rule::Rights;

/// Keep the document beyond the run.
const PERSISTENT: u32 = 2;

/// Leave out what the application that is named holds in its own folder.
const AS_NEEDED_BY_APP: u32 = 4;

/// Let open handles of the document follow later revocations.
const STRICT: u32 = 16;

/// Export a folder.
const EXPORT_DIRECTORY: u32 = 8;

/// The first flag that there isn't. All below it are known.
const UNKNOWN: u32 = 32;

/// Says whether each flag is one that there is. A folder is exported under its
/// own name, and for a run alone.
pub fn are_flags(add: &AddRequest) -> bool
    ensures { result ≡ are_flags add.now }
{
    add.flags < UNKNOWN && (!exports(add) || (!add.named && !persists(add)))
}

/// Says whether a live document of the same path may be used again, by the flag 1.
pub fn reuses(add: &AddRequest) -> bool
    ensures { result ≡ reuses add.now }
{
    add.flags % 2 == 1
}

/// Says whether the documents outlive the run.
pub fn persists(add: &AddRequest) -> bool
    ensures { result ≡ persists add.now }
{
    add.flags / PERSISTENT % 2 == 1
}

/// Says whether the documents are strict: open handles of theirs follow later
/// revocations.
pub fn is_strict(add: &AddRequest) -> bool
    ensures { result ≡ makes_strict add.now }
{
    add.flags / STRICT % 2 == 1
}

/// Says whether the documents are folders.
pub fn exports(add: &AddRequest) -> bool
    ensures { result ≡ exports add.now }
{
    add.flags / EXPORT_DIRECTORY % 2 == 1
}

/// Says whether files are left out that the named application has.
pub fn is_as_needed(add: &AddRequest) -> bool
    ensures { result ≡ is_as_needed add.now }
{
    add.flags / AS_NEEDED_BY_APP % 2 == 1
}

/// The rights that an application gets in what it adds.
pub fn adding_rights(add: &AddRequest) -> Rights
    ensures { result ≡ adding_rights add.now }
{
    if reuses(add) {
        Rights::ALL.minus(Rights::DELETE)
    } else {
        Rights::ALL
    }
}
