//! Who calls, and over which sort of connection.

use crate::memory::{Replica, WantOfMemory};
use crate::names::app_id::AppId;
use std::alloc::Global;

/// The caller that a connection's socket is bound to.
#[derive(Debug, Drop, PartialEq, Eq)]
pub enum Who {
    /// The host, which has every right in every live document.
    Host,
    /// A sandboxed application, by its name.
    App(AppId),
}

impl Replica for Who {
    fn replica(&self, alloc: Global) -> Result<Who, WantOfMemory> {
        match self {
            Who::Host => Ok(Who::Host),
            Who::App(name) => Ok(Who::App(name.replica(alloc)?)),
        }
    }
}

/// What a connection speaks.
#[derive(Clone, Copy, Debug, PartialEq, Eq)]
pub enum Kind {
    /// D-Bus messages.
    Bus,
    /// FUSE requests.
    Mount,
}

impl Replica for Kind {
    fn replica(&self, _alloc: Global) -> Result<Kind, WantOfMemory> {
        Ok(*self)
    }
}
