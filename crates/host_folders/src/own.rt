//! The names that are a tree's own: it shows nothing of what they name.

/// The folders in the root for files that aren't present: the first, and one for each other
/// service over the same root.
pub const FOLDERS: [&str; 8] = [
    ".docportal",
    ".docportal-2",
    ".docportal-3",
    ".docportal-4",
    ".docportal-5",
    ".docportal-6",
    ".docportal-7",
    ".docportal-8",
];

/// What the name of a copy begins with, beside the file whose place it takes. Its number stands
/// behind it.
pub const COPY: &str = ".docportal-copy-";

/// Says whether a name is a tree's own, wherever it stands: a root may lie below another's.
pub fn is_own(name: &str) -> bool {
    name == ".docportal" || name.starts_with(".docportal-")
}

/// Says whether a path has such a name in it.
pub fn leads_by_own(path: &str) -> bool {
    path.split('/').any(|name| is_own(name))
}
