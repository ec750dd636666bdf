//! The one way down from the root to a name, by folders that are open.

use crate::error::{OpenError, TreeError, is_missing, is_refused};
use crate::folder::{Folder, write_link};
use crate::mounts::{are_in, kernels_own};
use crate::own::{is_own, leads_by_own};
use crate::sight::{Kind, Sight, seen};
use libc::PATH_MAX;
use portal_base::list::List;
use portal_base::names::HostPath;
use std::alloc::{AllocError, Global};
use std::fs::{File, Metadata};
use std::io::ErrorKind;
use std::os::fd::AsRawFd;
use std::os::unix::fs::MetadataExt;
use std::{fs, io};

/// The most bytes of a link in `/proc` to what is open by a number, or to a name in it.
const MOST_BYTES: usize = 4_200;

/// The root, and what is kept from a way down.
#[derive(Drop)]
pub struct Way {
    system: HostRuntime,
    /// The path of the root, with a slash at its end.
    root: String,
    /// The devices that no step leads onto.
    kernels_own: List<u64>,
    /// A link in `/proc`. It has the room for each from the start.
    link: String,
}

/// Where a way ended: in a folder that is open, at a name in it.
#[derive(Drop)]
pub struct Place<'a> {
    /// The folder. It is the one that the path means, below the root.
    pub folder: Folder,
    /// The rest of the path. It is one part, but where folders on the way can't be opened
    /// for reading: then it is they, and the last part behind them.
    pub name: &'a str,
}

impl<'a> Place<'a> {
    /// Says whether the folder is the last above the name.
    pub fn is_direct(&self) -> bool {
        !self.name.contains('/')
    }
}

impl Way {
    /// The way from a root, which may be reached by links.
    pub fn open(system: HostRuntime, alloc: Global, root: &str) -> Result<Way, OpenError> {
        let mut path = String::from_str(alloc, root.trim_end_matches('/'))?;
        path.push('/')?;
        let mut way = Way {
            system,
            root: path,
            kernels_own: kernels_own(&system, alloc)?,
            link: String::with_capacity(alloc, MOST_BYTES)?,
        };
        way.try_root()?;
        Ok(way)
    }

    /// Looks whether the root can be entered, and reached by its number.
    fn try_root(&mut self) -> Result<(), OpenError> {
        let root = match self.root() {
            Ok(root) => root,
            Err(error) if is_missing(&error) => return Err(OpenError::NotFolder),
            Err(error) => return Err(OpenError::System(error)),
        };
        self.link_to(root.number(), "")?;
        match fs::metadata(&self.system, self.link.as_str()) {
            Ok(linked) if linked.is_dir() => Ok(()),
            _ => Err(OpenError::NoProc),
        }
    }

    /// Where a path leads: nowhere where a part of it is no folder but a link or a file, or a
    /// name of the tree's own, and where a step would lead onto the kernel's own. A root that
    /// is gone is a fault, since a tree always has one.
    pub fn to<'a>(&mut self, path: &'a HostPath) -> Result<Option<Place<'a>>, TreeError> {
        let text = text_of(path)?;
        if leads_by_own(text) {
            return Ok(None);
        }
        let Ok(mut folder) = self.root() else {
            return Err(TreeError::System);
        };
        let mut from = 1;
        for (end, _) in text.char_indices().filter(|(at, c)| *at > 0 && *c == '/') {
            let Some(name) = text.get(from..end) else {
                return Err(TreeError::System);
            };
            match folder.below(name) {
                Ok(below) => {
                    let Some(meant) = text.get(..end) else {
                        return Err(TreeError::System);
                    };
                    if !self.is_step(&below, name, meant)? {
                        return Ok(None);
                    }
                    folder = below;
                    from = end.saturating_add(1);
                }
                // It may be searched and not read: the next is opened by both names.
                Err(error) if is_refused(&error) => {}
                Err(error) if is_missing(&error) => return Ok(None),
                Err(_) => return Err(TreeError::System),
            }
        }
        match text.get(from..) {
            Some(name) => Ok(Some(Place { folder, name })),
            None => Err(TreeError::System),
        }
    }

    /// The folder at a path, open; nothing where no folder stands there.
    pub fn folder_at(&mut self, path: &HostPath) -> Result<Option<Folder>, TreeError> {
        let Some(Place { folder, name }) = self.to(path)? else {
            return Ok(None);
        };
        if name.is_empty() {
            return Ok(Some(folder));
        }
        match folder.below(name) {
            Ok(below) => {
                let is_step = self.is_step(&below, name, text_of(path)?)?;
                Ok(is_step.then_some(below))
            }
            Err(error) if is_missing(&error) => Ok(None),
            Err(error) if is_refused(&error) && name.contains('/') => Ok(None),
            Err(_) => Err(TreeError::System),
        }
    }

    /// Says whether a folder that was opened by a name is a step of the way, which leads to
    /// this path.
    fn is_step(&mut self, folder: &Folder, name: &str, meant: &str) -> Result<bool, TreeError> {
        self.link_to(folder.number(), "")?;
        match fs::metadata(&self.system, self.link.as_str()) {
            Ok(metadata) if self.is_kernels_own(metadata.dev()) => return Ok(false),
            Ok(_) => {}
            Err(_) => return Err(TreeError::System),
        }
        Ok(!name.contains('/') || self.is_at(folder.number(), meant)?)
    }

    /// What stands at a place; a link at its end isn't followed. Where the place isn't
    /// direct, another may have led elsewhere.
    pub fn sight(&mut self, place: &Place<'_>) -> io::Result<Sight> {
        self.sight_in(&place.folder, place.name)
    }

    /// What stands at a name in a folder; a link at its end isn't followed.
    pub fn sight_in(&mut self, folder: &Folder, name: &str) -> io::Result<Sight> {
        if self.link_to(folder.number(), name).is_err() {
            return Err(io::Error::from(ErrorKind::OutOfMemory));
        }
        Ok(Sight::of(&fs::symlink_metadata(&self.system, self.link.as_str())?))
    }

    /// The regular file that stands in the root itself at a path, by one look: no folder is on
    /// the way that a link may have taken the place of. Where it is none, only the way tells why.
    pub fn file_in_root(&mut self, path: &HostPath) -> Option<Sight> {
        let name = text_of(path).ok()?.strip_prefix('/')?;
        if name.is_empty() || name.contains('/') || is_own(name) {
            return None;
        }
        self.link.clear();
        self.link.push_str(self.root.as_str()).ok()?;
        self.link.push_str(name).ok()?;
        let sight = Sight::of(&fs::symlink_metadata(&self.system, self.link.as_str()).ok()?);
        let is_file = sight.kind == Kind::File && !self.is_kernels_own(sight.identity.device);
        is_file.then_some(sight)
    }

    /// Says whether a device is one of the kernel's own.
    pub fn is_kernels_own(&self, device: u64) -> bool {
        self.kernels_own.iter().any(|own| *own == device)
    }

    /// Says whether something may be mounted at a name in a folder just now.
    pub fn has_mounts_in(&mut self, alloc: Global, folder: &Folder) -> bool {
        let mut path = [0; PATH_MAX];
        let system = self.system;
        match self.real_path(folder.number(), &mut path) {
            Ok(Some(path)) => are_in(&system, alloc, path),
            _ => true,
        }
    }

    /// Says whether what is open by a number stands at a path below the root just now.
    pub fn is_at(&mut self, number: i32, path: &str) -> Result<bool, TreeError> {
        let Ok(root) = self.root() else {
            return Err(TreeError::System);
        };
        let mut above = [0; PATH_MAX];
        let mut here = [0; PATH_MAX];
        let Some(above) = self.real_path(root.number(), &mut above)? else {
            return Ok(false);
        };
        let Some(here) = self.real_path(number, &mut here)? else {
            return Ok(false);
        };
        // The root of the system has its own slash at the end; no other folder has one.
        let above = above.strip_suffix(b"/").unwrap_or(above);
        Ok(here.strip_prefix(above) == Some(path.as_bytes()))
    }

    /// The path at which what is open by a number stands.
    fn real_path<'b>(
        &mut self,
        number: i32,
        buffer: &'b mut [u8; PATH_MAX],
    ) -> Result<Option<&'b [u8]>, TreeError> {
        self.link_to(number, "")?;
        let len = os::readlink(self.link.as_bytes(), buffer);
        match usize::try_from(len) {
            Ok(len) if len < PATH_MAX => Ok(buffer.as_slice().get(..len)),
            _ => Ok(None),
        }
    }

    /// The root, open.
    pub fn root(&self) -> io::Result<Folder> {
        Folder::open(self.root.as_str())
    }

    /// What the system holds of what stands at a place; a link at its end isn't followed.
    pub fn metadata(&mut self, place: &Place<'_>) -> io::Result<Metadata> {
        self.link_to(place.folder.number(), place.name)?;
        fs::symlink_metadata(&self.system, self.link.as_str())
    }

    /// The link to what is open by a number, or to a name in it.
    pub fn link_to(&mut self, number: i32, name: &str) -> Result<&str, AllocError> {
        write_link(&mut self.link, number, name)?;
        Ok(self.link.as_str())
    }

    /// Says whether a file that was opened at a place is the one that was looked at.
    pub fn is_the_file(
        &mut self,
        path: &HostPath,
        place: &Place<'_>,
        file: &File,
        sight: &Sight,
    ) -> Result<bool, TreeError> {
        if !seen(file)?.is_file(&sight.identity) {
            return Ok(false);
        }
        Ok(place.is_direct() || self.is_at(file.as_raw_fd(), text_of(path)?)?)
    }

    /// Says whether a folder stands at a place that isn't direct, at this path.
    pub fn has_folder(&mut self, place: &Place<'_>, path: &str) -> Result<bool, TreeError> {
        match place.folder.below(place.name) {
            Ok(folder) => self.is_step(&folder, place.name, path),
            Err(_) => Ok(false),
        }
    }
}

/// A path as a text, which each that the tree is asked for is.
pub fn text_of(path: &HostPath) -> Result<&str, TreeError> {
    match str::from_utf8(path.as_bytes()) {
        Ok(text) => Ok(text),
        Err(_) => Err(TreeError::System),
    }
}
