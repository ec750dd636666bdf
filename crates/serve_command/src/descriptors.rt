//! How many files the process has open, and how many it may.

ghost use Rattle.std.specs.Prelude.{◌≤◌};

use libc::types::rlimit;
use std::fs;

/// Standard input, output and error.
const STANDARD_FILES: u64 = 3;

/// The most files that are counted.
pub const MOST_FILES: u64 = 1_000_000;

/// How many files the process may have open (getrlimit(2)), where the system tells it.
pub fn files_allowed() -> Option<u64> {
    let mut limit = rlimit {
        rlim_cur: 0,
        rlim_max: 0,
    };
    if libc::getrlimit(libc::RLIMIT_NOFILE, &mut limit) != 0 {
        return None;
    }
    Some(limit.rlim_cur)
}

/// How many files the process has open now, at most a million; three where `/proc` isn't
/// mounted.
pub fn files_open(system: &HostRuntime) -> u64
    ensures { result ≤ 1000000 }
{
    let Ok(entries) = fs::read_dir(system, "/proc/self/fd") else {
        return STANDARD_FILES;
    };
    let mut held = 0_u64;
    for entry in entries.take(MOST_FILES as usize) {
        if entry.is_ok() && held < MOST_FILES {
            held += 1;
        }
    }
    // The folder that is listed is one of them.
    held.saturating_sub(1)
}
