//! Limits and settings of a portal.

use crate::memory::{Replica, WantOfMemory};
use crate::names::host_path::HostPath;
use std::alloc::Global;

/// The limits of a portal, in items or bytes.
#[derive(Clone, Copy, PartialEq, Eq)]
pub struct Limits {
    /// Live documents.
    pub documents: u64,
    /// Documents made in a run, kept ones included.
    pub made: u64,
    /// The cost of the history, in bytes.
    pub history: u64,
    /// Open handles of one connection.
    pub handles: u64,
    /// Presented files that wait on one connection.
    pub queued: u64,
    /// Bytes of a file that the portal writes.
    pub file_bytes: u64,
}

impl Replica for Limits {
    fn replica(&self, _alloc: Global) -> Result<Limits, WantOfMemory> {
        Ok(*self)
    }
}

/// What a portal is set to.
#[derive(Drop)]
pub struct Settings {
    /// The limits.
    pub limits: Limits,
    /// Where the file view is mounted.
    pub mountpoint: HostPath,
    /// The bus identifier that the handshake tells.
    pub guid: [u8; 16],
}

impl Replica for Settings {
    fn replica(&self, alloc: Global) -> Result<Settings, WantOfMemory> {
        Ok(Settings {
            limits: self.limits,
            mountpoint: self.mountpoint.replica(alloc)?,
            guid: self.guid,
        })
    }
}
