//! What is mounted, and the devices that a way down doesn't step onto.

use crate::error::OpenError;
use portal_base::list::List;
use std::alloc::Global;
use std::fs::{File, Files};
use std::io::Read;

/// The file systems in which the kernel shows and takes what it knows: what stands in them
/// is no document, and a write there may change the system.
const KERNELS_OWN: [&str; 22] = [
    "proc",
    "sysfs",
    "cgroup",
    "cgroup2",
    "debugfs",
    "tracefs",
    "securityfs",
    "selinuxfs",
    "smackfs",
    "apparmorfs",
    "configfs",
    "bpf",
    "pstore",
    "efivarfs",
    "fusectl",
    "binfmt_misc",
    "mqueue",
    "devpts",
    "nsfs",
    "resctrl",
    "rpc_pipefs",
    "nfsd",
];

/// The devices of the kernel's own file systems, as they are mounted now.
pub fn kernels_own<R: Files>(files: &R, alloc: Global) -> Result<List<u64>, OpenError> {
    let text = mounts(files, alloc)?;
    let mut devices = List::new(alloc);
    for line in text.as_str().lines() {
        if let Some(found) = kernels_device(line) {
            devices.push(found)?;
        }
    }
    Ok(devices)
}

/// Says whether something may be mounted at a name in the folder of a path just now.
pub fn are_in<R: Files>(files: &R, alloc: Global, folder: &[u8]) -> bool {
    // The root of the system has its own slash at the end; no other folder has one.
    let folder = folder.strip_suffix(b"/").unwrap_or(folder);
    match mounts(files, alloc) {
        Ok(text) => text.as_str().lines().any(|line| may_be_in(line, folder)),
        Err(_) => true,
    }
}

/// Says whether a mount may be in the folder of a path. Where it is mounted is the fifth word of
/// the line, in which a backslash stands for a byte that a word can't have.
fn may_be_in(line: &str, folder: &[u8]) -> bool {
    let Some(place) = line.split(' ').nth(4) else {
        return true;
    };
    match place.rsplit_once('/') {
        Some((above, _)) => above.as_bytes() == folder || place.contains('\\'),
        None => true,
    }
}

/// The lines of all mounts.
fn mounts<R: Files>(files: &R, alloc: Global) -> Result<String, OpenError> {
    let Ok(mut file) = File::open(files, "/proc/self/mountinfo") else {
        return Err(OpenError::NoProc);
    };
    let mut bytes = Vec::new(alloc);
    if file.read_to_end(&mut bytes).is_err() {
        return Err(OpenError::NoProc);
    }
    Ok(String::from_utf8_lossy(alloc, bytes.as_slice())?)
}

/// The device of a mount that is the kernel's own. Its numbers are the third word of the
/// line, and what it is the first behind a lone `-` (proc_pid_mountinfo(5)).
fn kernels_device(line: &str) -> Option<u64> {
    let (mount, source) = line.split_once(" - ")?;
    let kind = source.split(' ').next()?;
    if !KERNELS_OWN.iter().any(|own| *own == kind) {
        return None;
    }
    let numbers = mount.split(' ').nth(2)?;
    let (major, minor) = numbers.split_once(':')?;
    Some(device(major.parse().ok()?, minor.parse().ok()?))
}

/// The number of a device, as the system gives it in a look (makedev(3)).
fn device(major: u64, minor: u64) -> u64 {
    (major & 0xffff_f000) << 32 | (major & 0xfff) << 8 | (minor & 0xffff_ff00) << 12 | minor & 0xff
}
