//! What a call on rights plans to do, and why it is refused.

use portal_base::names::{AppId, DocId};
use rights_rule::Rights;
use thiserror::Error;

/// Which way rights go.
#[derive(Clone, Copy, PartialEq, Eq)]
pub enum RightsKind {
    /// GrantPermissions: the application gets the listed rights.
    Grant,
    /// RevokePermissions: the listed rights are taken from the application, and
    /// no others.
    Revoke,
}

/// What a GrantPermissions or a RevokePermissions that is allowed does.
#[derive(Debug, Drop)]
pub struct RightsPlan {
    /// The live document.
    pub id: DocId,
    /// The application that gets rights, or loses them.
    pub app: AppId,
    /// The listed rights.
    pub rights: Rights,
}

/// Why a call on rights, or a Delete, is refused.
#[derive(Clone, Copy, Debug, PartialEq, Eq, Error)]
pub enum RightsError {
    /// There is no such document, or the caller has no right in it.
    #[error("there is no such document for the caller")]
    NotFound,
    /// The caller has some right in the document, and not the one that is
    /// needed.
    #[error("the caller may not do this")]
    NotAllowed,
    /// The application has no name, or a listed right is unknown.
    #[error("an argument is none that the call takes")]
    InvalidArgument,
    /// There was no memory.
    #[error("no memory for the plan")]
    Memory,
}
