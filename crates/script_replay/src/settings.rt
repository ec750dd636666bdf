//! What the portal of a run is set to.

ghost use Rattle.std.specs.Prelude.{◌≡◌, IfOk};
ghost use Rattle.script_replay.specs.Scenes.{run_limits, run_settings};

use portal_base::limits::{Limits, Settings};
use portal_base::memory::WantOfMemory;
use portal_base::names::NameError;
use portal_base::names::host_path::HostPath;
use std::alloc::Global;

/// Where the file view is mounted.
const MOUNTPOINT: &[u8] = b"/run/doc";

/// The limits of a portal that a script runs.
pub fn limits() -> Limits
    ensures { result ≡ run_limits }
{
    Limits {
        documents: 65_536,
        made: 1_048_576,
        history: 536_870_912,
        handles: 1_024,
        queued: 16,
        file_bytes: 268_435_456,
    }
}

/// The settings of a portal that a script runs.
pub fn settings(alloc: Global) -> Result<Settings, WantOfMemory>
    ensures { IfOk result (λ settings. settings ≡ run_settings) }
{
    Ok(Settings {
        limits: limits(),
        mountpoint: mountpoint(alloc)?,
        guid: [
            0x01, 0x23, 0x45, 0x67, 0x89, 0xab, 0xcd, 0xef, 0x01, 0x23, 0x45, 0x67, 0x89, 0xab,
            0xcd, 0xef,
        ],
    })
}

fn mountpoint(alloc: Global) -> Result<HostPath, WantOfMemory>
    ensures { IfOk result (λ path. path ≡ run_settings.mountpoint) }
{
    match HostPath::read(alloc, MOUNTPOINT) {
        Ok(path) => Ok(path),
        Err(NameError::Memory) => Err(WantOfMemory),
        Err(NameError::BadName { at: _ }) => unreachable!(),
    }
}
