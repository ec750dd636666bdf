//! Rights in a document.

/// A right that an application may have in a document.
#[derive(Clone, Copy, PartialEq, Eq)]
pub enum Right {
    /// To see the document and read its file.
    Read,
    /// To write its file.
    Write,
    /// To give rights that it has to others, and to take any.
    GrantPermissions,
    /// To remove the document.
    Delete,
}
