//! How many files may be kept open.

use libc::types::rlimit;

/// The most that are kept.
const MOST: u64 = 1_024;

/// Those that are needed beside: for a way down, for opens, and a few to spare.
const OTHERS: u64 = 64;

/// How many files may be kept open beside so many descriptors, as this process may have.
pub fn files_beside(descriptors: u64) -> usize {
    let mut limit = rlimit {
        rlim_cur: 0,
        rlim_max: 0,
    };
    if libc::getrlimit(libc::RLIMIT_NOFILE, &mut limit) < 0 {
        return 0;
    }
    let left = limit
        .rlim_cur
        .saturating_sub(descriptors)
        .saturating_sub(OTHERS);
    left.min(MOST) as usize
}
