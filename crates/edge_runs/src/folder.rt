//! What is done to the folder without the edges.

use std::fs;
use std::os::unix::fs::{PermissionsExt, symlink};
use vector_lines::error::{VectorError, given};
use vector_lines::notation::cut;
use vector_lines::output::Output;

/// The most names of a folder that are counted.
const MOST_NAMES: usize = 1_000;

/// `link ORIGINAL AT`: a symbolic link is made.
pub fn link(system: &HostRuntime, out: &mut Output, rest: &str) {
    let (original, at) = cut(rest);
    match symlink(system, original, at) {
        Ok(()) => out.text("made"),
        Err(error) => out.debug(&error),
    }
}

/// `file PATH`: the text of a file.
pub fn file(system: &HostRuntime, out: &mut Output, path: &str) -> Result<(), VectorError> {
    let bytes = given(system.alloc(), fs::read(system, path))?;
    out.lossy(bytes.as_slice());
    Ok(())
}

/// `kept PATH`: the mode of a folder, in octal digits, and how many names it holds.
pub fn kept(system: &HostRuntime, out: &mut Output, path: &str) -> Result<(), VectorError> {
    let names = given(system.alloc(), fs::read_dir(system, path))?;
    let mut count = 0_u64;
    for name in names.take(MOST_NAMES) {
        if name.is_ok() {
            count = count.saturating_add(1);
        }
    }
    mode_of(system, out, path);
    out.text(", ");
    out.number(count);
    Ok(())
}

/// `mode-of PATH`: the mode of what stands at a path, in three octal digits.
pub fn mode_of(system: &HostRuntime, out: &mut Output, path: &str) {
    match fs::symlink_metadata(system, path) {
        Ok(metadata) => {
            let mode = metadata.permissions().mode();
            out.debug(&(mode >> 6 & 7));
            out.debug(&(mode >> 3 & 7));
            out.debug(&(mode & 7));
        }
        Err(error) => out.debug(&error),
    }
}
