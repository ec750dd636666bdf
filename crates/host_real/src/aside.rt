//! The folder of files that aren't present.
//!
//! It lies in the root, and is one service's for as long as that lives: it holds a lock
//! (flock(2)), which goes with the process too. What a service left in it is taken away
//! when the next one takes it. Its files have numbers for names.

use host_folders::folder::{Folder, write_link};
use host_folders::own::FOLDERS;
use host_folders::sight::{Kind, Sight};
use std::alloc::Global;
use std::fs::{DirBuilder, File, OpenOptions, Permissions, TryLockError};
use std::io::ErrorKind;
use std::os::unix::fs::{DirBuilderExt, MetadataExt, PermissionsExt};
use std::{fs, io};

/// Only the owner may go into the folder.
const MODE: u32 = 0o700;

/// The bits of a mode that say who may read, write and enter a folder.
const MODE_BITS: u32 = 0o777;

/// The bits by which a folder's group or others may write in it.
const WRITE_OF_OTHERS: u32 = 0o022;

/// The file that is locked.
const LOCK: &str = "lock";

/// The most bytes of names that are read at once.
const MOST_BYTES: usize = 8_192;

/// The most bytes of a link in `/proc` to a file in the folder.
const MOST_OF_LINK: usize = 300;

/// How many numbers are tried where files that can't be taken away have them.
const MOST_TRIES: usize = 1_024;

/// The folder of files that aren't present.
#[derive(Drop)]
pub struct Aside {
    system: HostRuntime,
    folder: Folder,
    // It holds the lock.
    _lock: File,
    /// A link in `/proc` to a file in it.
    link: String,
    /// The number of the next file.
    next: u64,
}

impl Aside {
    /// The folder in a root, without files. Where another service over the root has it, it is
    /// the first beside that nobody has.
    pub fn open(system: HostRuntime, alloc: Global, root: &Folder) -> io::Result<Aside> {
        let mut link = String::with_capacity(alloc, MOST_OF_LINK)?;
        for name in FOLDERS {
            let folder = folder_in(&system, &mut link, root, name)?;
            see_own(&system, &mut link, &folder)?;
            if let Some(lock) = locked(&system, &mut link, &folder)? {
                empty(&folder)?;
                return Ok(Aside {
                    system,
                    folder,
                    _lock: lock,
                    link,
                    next: 1,
                });
            }
        }
        Err(io::Error::from(ErrorKind::ResourceBusy))
    }

    /// A new file in it, which is empty, and its number.
    pub fn make(&mut self) -> io::Result<(u64, File)> {
        let system = self.system;
        for _ in 0..MOST_TRIES {
            let number = self.next_number();
            match File::create_new(&system, self.link_to(number)?) {
                Ok(file) => return Ok((number, file)),
                Err(error) if error.kind() == ErrorKind::AlreadyExists => {}
                Err(error) => return Err(error),
            }
        }
        Err(io::Error::from(ErrorKind::AlreadyExists))
    }

    /// Gives what has a path a second name in it, which is the number. A link at the end of
    /// the path isn't followed.
    pub fn add(&mut self, path: &str) -> io::Result<u64> {
        let system = self.system;
        for _ in 0..MOST_TRIES {
            let number = self.next_number();
            match fs::hard_link(&system, path, self.link_to(number)?) {
                Ok(()) => return Ok(number),
                Err(error) if error.kind() == ErrorKind::AlreadyExists => {}
                Err(error) => return Err(error),
            }
        }
        Err(io::Error::from(ErrorKind::AlreadyExists))
    }

    /// Puts the file of a number in the place of what has a path, in one step.
    pub fn put(&mut self, number: u64, path: &str) -> io::Result<()> {
        let system = self.system;
        fs::rename(&system, self.link_to(number)?, path)
    }

    /// What the system shows of the file of a number.
    pub fn sight(&mut self, number: u64) -> io::Result<Sight> {
        let system = self.system;
        Ok(Sight::of(&fs::symlink_metadata(&system, self.link_to(number)?)?))
    }

    /// Takes the file of a number away.
    pub fn remove(&mut self, number: u64) {
        let system = self.system;
        // Where that fails, the next service takes it away.
        if let Ok(link) = self.link_to(number) {
            let _ = fs::remove_file(&system, link);
        }
    }

    /// The link to the file of a number.
    pub fn link_to(&mut self, number: u64) -> io::Result<&str> {
        write_link(&mut self.link, self.folder.number(), "")?;
        write!(self.link, "/{number}")?;
        Ok(self.link.as_str())
    }

    fn next_number(&mut self) -> u64 {
        let number = self.next;
        self.next = self.next.saturating_add(1);
        number
    }
}

/// The folder of a name in a root, which is made where it is missing. It is no link.
fn folder_in(
    system: &HostRuntime,
    link: &mut String,
    root: &Folder,
    name: &str,
) -> io::Result<Folder> {
    match root.below(name) {
        Err(error) if error.kind() == ErrorKind::NotFound => {}
        answer => return answer,
    }
    write_link(link, root.number(), name)?;
    let mut builder = DirBuilder::new();
    builder.mode(MODE);
    match builder.create(system, link.as_str()) {
        // Another service made it just now.
        Err(error) if error.kind() != ErrorKind::AlreadyExists => Err(error),
        _ => root.below(name),
    }
}

/// Refuses a folder of another owner, or one that others may write in: what is in it would be
/// theirs to exchange. Nobody else may go into it from then on.
fn see_own(system: &HostRuntime, link: &mut String, folder: &Folder) -> io::Result<()> {
    write_link(link, folder.number(), "")?;
    let metadata = fs::metadata(system, link.as_str())?;
    let mode = metadata.mode() & MODE_BITS;
    if metadata.uid() != libc::geteuid() || mode & WRITE_OF_OTHERS != 0 {
        return Err(io::Error::from(ErrorKind::PermissionDenied));
    }
    if mode == MODE {
        return Ok(());
    }
    fs::set_permissions(system, link.as_str(), Permissions::from_mode(MODE))
}

/// The lock of a folder; nothing where another service holds it.
fn locked(system: &HostRuntime, link: &mut String, folder: &Folder) -> io::Result<Option<File>> {
    write_link(link, folder.number(), LOCK)?;
    let file = match File::create_new(system, link.as_str()) {
        Ok(file) => file,
        Err(error) if error.kind() == ErrorKind::AlreadyExists => {
            opened_as_it_is(system, link.as_str())?
        }
        Err(error) => return Err(error),
    };
    match file.try_lock() {
        Ok(()) => Ok(Some(file)),
        Err(TryLockError::WouldBlock) => Ok(None),
        Err(TryLockError::Error(error)) => Err(error),
    }
}

/// The file that is locked, where it is there: a regular file, to which no link led.
fn opened_as_it_is(system: &HostRuntime, path: &str) -> io::Result<File> {
    let sight = Sight::of(&fs::symlink_metadata(system, path)?);
    if sight.kind != Kind::File {
        return Err(io::Error::from(ErrorKind::InvalidInput));
    }
    let file = OpenOptions::new()
        .read(true)
        .write(true)
        .open(system, path)?;
    if !Sight::of(&file.metadata()?).is_file(&sight.identity) {
        return Err(io::Error::from(ErrorKind::InvalidInput));
    }
    Ok(file)
}

/// Takes all files of a folder away, but for the one that is locked.
fn empty(folder: &Folder) -> io::Result<()> {
    let mut buffer = [0u8; MOST_BYTES];
    for _ in 0..u64::MAX {
        let len = folder.read_names(&mut buffer)?;
        if len == 0 {
            break;
        }
        let Some(read) = buffer.as_slice().get(..len) else {
            break;
        };
        for name in read.split(|byte| *byte == 0) {
            if !matches!(name, b"" | b"." | b".." | b"lock") {
                // What can't be taken away keeps its name, and no file gets that.
                let _ = folder.remove(name);
            }
        }
    }
    Ok(())
}
