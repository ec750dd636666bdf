//! Files of the real tree that others replace, and those that the system keeps from us.

use crate::folder::file;
use host_tree::{AttrAnswer, HostTree, LookAnswer, TreeDone, TreeRead};
use portal_base::files::{FileName, Look};
use portal_base::names::HostPath;
use std::alloc::Global;
use std::fs;
use std::fs::{File, OpenOptions, Permissions};
use std::os::unix::fs::PermissionsExt;
use vector_lines::error::{LineError, VectorError, bad, given};
use vector_lines::notation::cut;
use vector_lines::output::Output;

/// `KIND ROOT PATH ..`: a file is looked at, and then what a line of a kind tells of it.
pub fn over_file<T: HostTree>(
    system: &HostRuntime,
    out: &mut Output,
    tree: &mut T,
    kind: &str,
    root: &str,
    rest: &str,
) -> Result<(), VectorError> {
    let alloc = system.alloc();
    let (path, rest) = cut(rest);
    let place = place_of(alloc, root, path)?;
    let mut old = looked_at(alloc, tree, path)?;
    let outcome = match kind {
        "saved" => saved(system, out, tree, &old, root, place.as_str(), rest),
        "became" => became(system, out, tree, &mut old, place.as_str()),
        "given-up" => given_up(system, out, tree, &old, root, place.as_str(), rest),
        _ => bad(),
    };
    drop(old);
    drop(place);
    outcome
}

/// `saved ROOT PATH BY`: a file is looked at, and another is renamed to its path; what is
/// read by the old look and written by it, what the new file has then, and whether another
/// look shows another generation.
fn saved<T: HostTree>(
    system: &HostRuntime,
    out: &mut Output,
    tree: &mut T,
    old: &FileName,
    root: &str,
    place: &str,
    by: &str,
) -> Result<(), VectorError> {
    rename(system, root, by, place)?;
    put_text(out, tree, old);
    out.text(", ");
    out.debug(&tree.write(old, 0, b"by the old", 1));
    out.text(", ");
    file(system, out, place)?;
    out.text(", another ");
    out.debug(&match tree.look(&old.path) {
        LookAnswer::Is(Look::File { generation, .. }) => generation != old.generation,
        _ => false,
    });
    Ok(())
}

/// `became ROOT PATH`: a file is looked at, removed, and a folder made in its place; what a
/// look shows then, what is read by the old one, and what the file of the path is.
fn became<T: HostTree>(
    system: &HostRuntime,
    out: &mut Output,
    tree: &mut T,
    old: &mut FileName,
    place: &str,
) -> Result<(), VectorError> {
    let alloc = system.alloc();
    given(alloc, fs::remove_file(system, place))?;
    given(alloc, fs::create_dir(system, place))?;
    out.debug(&tree.look(&old.path));
    out.text(", ");
    put_text(out, tree, old);
    out.text(", ");
    // By this generation the file is named that was made at the path, by no look at it.
    old.generation = 0;
    out.debug(&tree.attr(old));
    Ok(())
}

/// `given-up ROOT PATH ONE OTHER BY`: a file is looked at, and then so many others that it
/// isn't kept open; whether its attributes are shown by the old look, and once another is
/// renamed to its path.
fn given_up<T: HostTree>(
    system: &HostRuntime,
    out: &mut Output,
    tree: &mut T,
    old: &FileName,
    root: &str,
    place: &str,
    rest: &str,
) -> Result<(), VectorError> {
    let (one, rest) = cut(rest);
    let (other, by) = cut(rest);
    look_at_both(system.alloc(), tree, one, other)?;
    out.debug(&matches!(tree.attr(old), AttrAnswer::Is { .. }));
    look_at_both(system.alloc(), tree, one, other)?;
    rename(system, root, by, place)?;
    out.text(", ");
    out.debug(&tree.attr(old));
    Ok(())
}

fn look_at_both<T: HostTree>(
    alloc: Global,
    tree: &mut T,
    one: &str,
    other: &str,
) -> Result<(), LineError> {
    drop(looked_at(alloc, tree, one)?);
    drop(looked_at(alloc, tree, other)?);
    Ok(())
}

/// `mode ROOT PATH MODE`: a file gets a mode, of octal digits; whether it is shown, and
/// whether it is read and written exactly where the system opens it to do so.
pub fn mode<T: HostTree>(
    system: &HostRuntime,
    out: &mut Output,
    tree: &mut T,
    root: &str,
    rest: &str,
) -> Result<(), VectorError> {
    let alloc = system.alloc();
    let (path, digits) = cut(rest);
    let place = place_of(alloc, root, path)?;
    let opened = opened_with(system, place.as_str(), digits);
    drop(place);
    let (may_read, may_write) = opened?;
    let name = looked_at(alloc, tree, path)?;
    let is_read = matches!(tree.read(&name, 0, 9), TreeRead::Got(_));
    let is_written = tree.write(&name, 0, b"x", 1) == TreeDone::Done;
    drop(name);
    out.text("shown, ");
    out.debug(&(is_read == may_read));
    out.text(", ");
    out.debug(&(is_written == may_write));
    Ok(())
}

/// Whether the system opens a file to be read and to be written, once it has a mode.
fn opened_with(
    system: &HostRuntime,
    place: &str,
    digits: &str,
) -> Result<(bool, bool), VectorError> {
    let Ok(mode) = u32::from_str_radix(digits, 8) else {
        return bad();
    };
    let mode = Permissions::from_mode(mode);
    given(system.alloc(), fs::set_permissions(system, place, mode))?;
    let may_read = File::open(system, place).is_ok();
    let may_write = OpenOptions::new().write(true).open(system, place).is_ok();
    Ok((may_read, may_write))
}

/// Renames what has a path to a place.
fn rename(system: &HostRuntime, root: &str, by: &str, place: &str) -> Result<(), VectorError> {
    let by = place_of(system.alloc(), root, by)?;
    given(system.alloc(), fs::rename(system, by.as_str(), place))
}

/// Where a path lies in the folder that the program runs in.
fn place_of(alloc: Global, root: &str, path: &str) -> Result<String, LineError> {
    Ok(format!(in alloc; "{root}{path}")?)
}

/// The name of the file that a look shows at a path.
fn looked_at<T: HostTree>(alloc: Global, tree: &mut T, path: &str) -> Result<FileName, LineError> {
    let path = HostPath::read(alloc, path.as_bytes())?;
    match tree.look(&path) {
        LookAnswer::Is(Look::File { generation, .. }) => Ok(FileName { path, generation }),
        _ => Err(LineError::BadLine),
    }
}

/// The text of a file, or why none came.
fn put_text<T: HostTree>(out: &mut Output, tree: &mut T, name: &FileName) {
    match tree.read(name, 0, 99) {
        TreeRead::Got(bytes) => out.lossy(bytes.as_slice()),
        answer => out.debug(&answer),
    }
}
