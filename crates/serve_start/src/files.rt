//! How many files a service has open at once.

ghost use Rattle.std.specs.Prelude.{◌≡◌, ◌≤◌};
ghost use Rattle.serve_start.specs.Files.{IsLeastLimit};

/// The files that the tree has open at once: one that it keeps, the one that was written last,
/// three folders on the way down, one that each of its eight threads opens, the folder of those
/// that aren't present and its lock, and one that is made.
const TREE_FILES: u64 = 16;

/// The files that the store has open at once: its database and the log of that, and what
/// it opens to sync their folder.
const STORE_FILES: u64 = 6;

/// The folder of the sockets, and the hidden one in it.
const FOLDER_FILES: u64 = 2;

/// What is open for a moment: the end of a connection that is turned away, a folder that
/// is listed.
const PASSING_FILES: u64 = 4;

/// The least limit of open files (getrlimit(2), RLIMIT_NOFILE) under which a service of so many
/// sockets and posts can open each descriptor that it needs, where so many are held open
/// before it.
///
/// Each post has a connection and a descriptor in spare. What the tree, the store and the
/// folders have open is counted by hand, and no clause of theirs says it.
pub fn files_wanted(held: u64, sockets: u64, posts: u64) -> u64
    requires { (held ≤ 1000000) × (sockets ≤ 1000000) × (posts ≤ 1000000) }
    ensures { IsLeastLimit held sockets posts result }
{
    held + sockets + 2 * posts + TREE_FILES + STORE_FILES + FOLDER_FILES + PASSING_FILES
}
