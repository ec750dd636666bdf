//! What the portal of a service is set to.

ghost use Rattle.std.specs.Prelude.{◌≡◌, IfOk, length};
ghost use Rattle.serve_start.specs.Settings.{limits_with, settings_with};

use portal_base::limits::{Limits, Settings};
use portal_base::memory::WantOfMemory;
use portal_base::names::{HostPath, NameError};
use std::alloc::Global;

/// Where the file view is mounted.
const MOUNTPOINT: &[u8] = b"/run/doc";

/// The limits of a service whose history may cost so many bytes.
pub fn limits(history: u64) -> Limits
    ensures { result ≡ limits_with history }
{
    Limits {
        documents: 65_536,
        made: 1_048_576,
        history,
        handles: 1_024,
        queued: 16,
        file_bytes: 1_099_511_627_776,
    }
}

/// The settings of a service.
pub fn settings(alloc: Global, history: u64, guid: [u8; 16]) -> Result<Settings, WantOfMemory>
    ensures { IfOk result (λ settings. settings ≡ settings_with history guid) }
{
    match HostPath::read(alloc, MOUNTPOINT) {
        Ok(mountpoint) => Ok(Settings {
            limits: limits(history),
            mountpoint,
            guid,
        }),
        Err(NameError::Memory) => Err(WantOfMemory),
        Err(NameError::BadName { at: _ }) => unreachable!(),
    }
}
