//! The calls on files below a root folder.

ghost use Rattle.std.specs.Prelude.{◌≤◌, length, IfOk, IfSome};
ghost use Rattle.portal_base.specs.FolderNames.{AreInOrder};

use crate::aside::Aside;
use crate::kept::KeptFiles;
use crate::listing;
use crate::made::MadeFiles;
use crate::opener::{Opener, Purpose};
use crate::stored::{Stored, StoredFiles};
use crate::system::{System, Waiter};
use crate::writing::LastWritten;
use host_folders::content;
use host_folders::error::{OpenError, TreeError, fault, is_missing, is_refused};
use host_folders::numbers::{Numbers, is_of_look};
use host_folders::own::COPY;
use host_folders::sight::{Kind, Sight, seen};
use host_folders::way::{Place, Way, text_of};
use portal_base::files::{ChildName, FileName, Look};
use portal_base::list::{ByteList, List};
use portal_base::names::HostPath;
use std::alloc::Global;
use std::fs::{File, Metadata, OpenOptions};
use std::io::ErrorKind;
use std::os::fd::AsRawFd;
use std::os::unix::fs::OpenOptionsExt;
use std::{fs, io};

/// The most files that aren't present and that are known.
const MOST_HIDDEN: usize = 4_096;

/// Only the owner may read a copy that isn't in its place yet, and write to it.
const COPY_MODE: u32 = 0o600;

/// The most files that others took the place of and that have a second name.
const MOST_FORMER: usize = 16;

/// What the system shows of a file.
#[derive(Clone, Copy, PartialEq, Eq)]
pub struct Attributes {
    /// Its length in bytes.
    pub size: u64,
    /// When it changed last, in seconds.
    pub moment: u64,
}

/// A file that a name names.
#[derive(Clone, Copy)]
enum Named {
    /// The one that is kept open, of this generation.
    Kept(u64),
    /// One that can't be opened for reading, as it is shown.
    Shown(Sight),
}

/// The files of the system below a root folder.
#[derive(Drop)]
pub struct FilesBelow<R: Waiter> {
    system: HostRuntime,
    alloc: Global,
    way: Way,
    opener: Opener<R>,
    numbers: Numbers,
    kept: KeptFiles,
    made: MadeFiles,
    written: LastWritten<R>,
    /// Where the files lie that aren't present; nothing where no folder can be had for them.
    aside: Option<Aside>,
    /// Those that weren't present yet.
    hidden: StoredFiles,
    /// Those that were, under second names.
    former: StoredFiles,
}

impl<R: Waiter> FilesBelow<R> {
    /// The files below a folder, of which so many are kept open.
    pub fn open(
        rt: R,
        system: HostRuntime,
        alloc: Global,
        root: &str,
        kept: usize,
    ) -> Result<FilesBelow<R>, OpenError>
    where
        R: System,
    {
        let numbers = match Numbers::new(&system) {
            Ok(numbers) => numbers,
            Err(error) => return Err(OpenError::System(error)),
        };
        let way = Way::open(system, alloc, root)?;
        let aside = aside_of(system, alloc, &way);
        Ok(FilesBelow {
            system,
            alloc,
            way,
            opener: Opener::new(rt, system, alloc)?,
            numbers,
            kept: KeptFiles::new(alloc, kept)?,
            made: MadeFiles::new(alloc)?,
            written: LastWritten::new(rt, alloc)?,
            aside,
            hidden: StoredFiles::new(alloc, MOST_HIDDEN)?,
            former: StoredFiles::new(alloc, MOST_FORMER)?,
        })
    }

    /// What stands at a path.
    pub fn look(&mut self, path: &HostPath) -> Result<Look, TreeError> {
        if let Some(sight) = self.kept_in_root(path) {
            return Ok(self.look_of(&sight));
        }
        let Some(place) = self.way.to(path)? else {
            return Ok(Look::Missing);
        };
        if place.name.is_empty() {
            return Ok(Look::Folder);
        }
        match self.shown(path, &place)? {
            Some(sight) => Ok(self.look_of(&sight)),
            None => Ok(Look::Missing),
        }
    }

    /// The file in the root itself at a path, where it is kept open: a look shows it as the way
    /// to it would.
    fn kept_in_root(&mut self, path: &HostPath) -> Option<Sight> {
        let sight = self.way.file_in_root(path)?;
        let generation = self.numbers.generation(&sight.identity);
        self.kept.looks_at(generation).then_some(sight)
    }

    /// What is told of what the system shows.
    fn look_of(&self, sight: &Sight) -> Look {
        match sight.kind {
            Kind::Folder => Look::Folder,
            Kind::Other => Look::Missing,
            Kind::File => Look::File {
                generation: self.numbers.generation(&sight.identity),
                size: sight.size,
                moment: sight.moment,
            },
        }
    }

    /// The names of the files and folders in a folder; nothing where there is no folder.
    pub fn list(&mut self, path: &HostPath) -> Result<Option<List<ChildName>>, TreeError>
        ensures { IfOk result (λ found. IfSome found AreInOrder) }
    {
        let Some(folder) = self.way.folder_at(path)? else {
            return Ok(None);
        };
        let names = listing::names(self.alloc, &mut self.way, &folder)?;
        Ok(Some(names.into_list(self.alloc)?))
    }

    /// What the system shows of a file.
    pub fn attributes(&mut self, name: &FileName) -> Result<Attributes, TreeError> {
        let sight = match self.named(name)? {
            Named::Shown(sight) => sight,
            Named::Kept(generation) => match self.kept.get(generation) {
                Some(file) => seen(file)?,
                None => return Err(TreeError::System),
            },
        };
        Ok(Attributes {
            size: sight.size,
            moment: sight.moment,
        })
    }

    /// The bytes of a file from an offset on, at most `size`.
    pub fn read(&mut self, name: &FileName, offset: u64, size: u32) -> Result<ByteList, TreeError>
        ensures { IfOk result (λ bytes. length bytes ≤ size) }
    {
        let Named::Kept(generation) = self.named(name)? else {
            return Err(TreeError::System);
        };
        match self.kept.used(generation) {
            Some(file) => content::read(self.alloc, file, offset, size),
            None => Err(TreeError::System),
        }
    }

    /// Writes over a file's bytes from an offset on.
    pub fn write(
        &mut self,
        name: &FileName,
        offset: u64,
        bytes: &[u8],
        now: u64,
    ) -> Result<(), TreeError> {
        let named = self.named(name)?;
        if bytes.is_empty() {
            return Ok(());
        }
        let file = self.opened_to_write(name, named)?;
        let outcome = content::write(&file, offset, bytes, now);
        self.changed(named, file);
        outcome
    }

    /// Cuts a file to a length, or fills it with zero bytes up to it.
    pub fn set_len(&mut self, name: &FileName, size: u64, now: u64) -> Result<(), TreeError> {
        let named = self.named(name)?;
        let file = self.opened_to_write(name, named)?;
        let outcome = content::set_len(&file, size, now);
        self.changed(named, file);
        outcome
    }

    /// Brings a file's bytes to rest, and of one that was made here and is present its name too.
    pub fn sync(&mut self, name: &FileName) -> Result<(), TreeError> {
        let Named::Kept(generation) = self.named(name)? else {
            return Err(TreeError::System);
        };
        match self.kept.used(generation) {
            Some(file) => content::sync(file)?,
            None => return Err(TreeError::System),
        }
        if self.hidden.get(generation).is_some() {
            self.hidden.set_rests(generation, true);
            return Ok(());
        }
        if !is_of_look(name.generation) {
            if let Some(place) = self.way.to(&name.path)? {
                if place.is_direct() && place.folder.sync().is_err() {
                    return Err(TreeError::System);
                }
            }
        }
        Ok(())
    }

    /// Makes an empty file where nothing stands and the parent is a folder. A link stands
    /// there all the same. A folder that can't be read takes no file.
    pub fn create(&mut self, path: &HostPath, now: u64) -> Result<(), TreeError> {
        let Some(place) = self.way.to(path)? else {
            return Err(TreeError::NotFile);
        };
        if place.name.is_empty() {
            return Err(TreeError::NotFile);
        }
        match self.way.sight(&place) {
            Ok(_) => return Err(TreeError::NotFile),
            Err(error) if error.kind() == ErrorKind::NotFound && place.is_direct() => {}
            Err(error) if error.kind() == ErrorKind::NotADirectory => {
                return Err(TreeError::NotFile);
            }
            Err(_) => return Err(TreeError::System),
        }
        // What is made so is new: a link at the name isn't followed, and nothing is opened.
        let link = self.way.link_to(place.folder.number(), place.name)?;
        let file = match File::create_new(&self.system, link) {
            Ok(file) => file,
            Err(error) if error.kind() == ErrorKind::AlreadyExists => {
                return Err(TreeError::NotFile);
            }
            Err(error) => return Err(TreeError::from(error)),
        };
        content::set_moment(&file, now);
        // It is made, whatever comes; where it can't be known which it is, its name is of the
        // regular file at the path.
        let _ = self.add_made(path, &file);
        Ok(())
    }

    /// Knows from now on which file was made at a path, and keeps it open to read.
    fn add_made(&mut self, path: &HostPath, file: &File) -> Result<(), TreeError> {
        let generation = self.numbers.generation(&seen(file)?.identity);
        self.made.add(self.numbers.name(path, 0), generation)?;
        self.keep_made(path, generation, file)
    }

    /// Keeps a file open to read that was made here.
    fn keep_made(
        &mut self,
        path: &HostPath,
        generation: u64,
        file: &File,
    ) -> Result<(), TreeError> {
        let owner = self.numbers.owner(path);
        let link = self.way.link_to(file.as_raw_fd(), "")?;
        match self.opener.open(link, Purpose::Read, owner) {
            Ok(kept) => self.kept.keep(generation, kept)?,
            Err(_) => return Err(TreeError::System),
        }
        Ok(())
    }

    /// Makes an empty file of a name that no file has, where the parent is a folder. It isn't
    /// present.
    pub fn fresh(&mut self, name: &FileName, now: u64) -> Result<(), TreeError> {
        if is_of_look(name.generation) || self.wanted(name).is_some() {
            return Err(TreeError::NotFile);
        }
        let Some(place) = self.way.to(&name.path)? else {
            return Err(TreeError::NotFile);
        };
        if !place.is_direct() {
            return Err(TreeError::System);
        }
        let Some(aside) = &mut self.aside else {
            return Err(TreeError::System);
        };
        let (number, file) = match aside.make() {
            Ok(made) => made,
            Err(error) => return Err(fault(error.kind())),
        };
        content::set_moment(&file, now);
        let outcome = self.add_hidden(name, number, &file);
        if outcome.is_err() {
            self.remove_aside(number);
        }
        outcome
    }

    /// Knows from now on which file has a name and isn't present, and keeps it open to read.
    fn add_hidden(&mut self, name: &FileName, number: u64, file: &File) -> Result<(), TreeError> {
        let generation = self.numbers.generation(&seen(file)?.identity);
        self.keep_made(&name.path, generation, file)?;
        if let Some(last) = self.hidden.add(generation, number)? {
            self.remove_aside(last);
        }
        self.made
            .add(self.numbers.name(&name.path, name.generation), generation)?;
        Ok(())
    }

    /// Takes the file of a number away from those that aren't present.
    fn remove_aside(&mut self, number: u64) {
        if let Some(aside) = &mut self.aside {
            aside.remove(number);
        }
    }

    /// Makes a file that isn't present its path's present one, by one rename. The one before is
    /// reached for as long as it is kept open, or is among the last that have a second name.
    pub fn turn(&mut self, name: &FileName) -> Result<(), TreeError> {
        let Some(generation) = self.wanted(name) else {
            return Err(TreeError::NotFile);
        };
        let Some(place) = self.way.to(&name.path)? else {
            return Err(TreeError::NotFile);
        };
        if !place.is_direct() {
            return Err(TreeError::System);
        }
        if place.name.is_empty() {
            return Err(TreeError::NotFile);
        }
        let there = self.replaceable(&place)?;
        let Some(stored) = self.hidden.get(generation) else {
            return self.is_present(generation, there);
        };
        self.turn_stored(name, &place, generation, stored, there)
    }

    /// What the system holds of a file that another may take the place of; nothing where nothing
    /// stands there.
    fn replaceable(&mut self, place: &Place<'_>) -> Result<Option<Metadata>, TreeError> {
        let metadata = match self.way.metadata(place) {
            Ok(metadata) => metadata,
            Err(error) if error.kind() == ErrorKind::NotFound => return Ok(None),
            Err(error) => return Err(fault(error.kind())),
        };
        let sight = Sight::of(&metadata);
        match sight.kind {
            Kind::Folder => Err(TreeError::NotFile),
            // A link, a pipe, a socket or a device stays where it is.
            Kind::Other => Err(TreeError::System),
            Kind::File if self.way.is_kernels_own(sight.identity.device) => Err(TreeError::System),
            Kind::File => Ok(Some(metadata)),
        }
    }

    /// Done where the file of a generation is the one that stands there.
    fn is_present(&self, generation: u64, there: Option<Metadata>) -> Result<(), TreeError> {
        match there {
            Some(metadata)
                if self.numbers.generation(&Sight::of(&metadata).identity) == generation => {
                Ok(())
            }
            _ => Err(TreeError::NotFile),
        }
    }

    /// Puts a file that isn't present in its place.
    fn turn_stored(
        &mut self,
        name: &FileName,
        place: &Place<'_>,
        generation: u64,
        stored: Stored,
        former: Option<Metadata>,
    ) -> Result<(), TreeError> {
        if !self.kept.looks_at(generation) && !self.keep_stored(&name.path, generation)? {
            return Err(TreeError::NotFile);
        }
        if let Some(former) = &former {
            match self.kept.get(generation) {
                Some(file) => content::set_like(file, former)?,
                None => return Err(TreeError::System),
            }
            self.add_former(place);
        }
        let link = self.way.link_to(place.folder.number(), place.name)?;
        let Some(aside) = &mut self.aside else {
            return Err(TreeError::System);
        };
        match aside.put(stored.number, link) {
            Ok(()) => {}
            Err(error) if error.kind() == ErrorKind::CrossesDevices => {
                self.put_copy(name, place, generation)?;
                self.remove_aside(stored.number);
            }
            Err(error) if error.kind() == ErrorKind::IsADirectory => {
                return Err(TreeError::NotFile);
            }
            Err(error) => return Err(fault(error.kind())),
        }
        self.hidden.take(generation);
        if stored.rests {
            // It is present, whatever comes.
            let _ = place.folder.sync();
        }
        Ok(())
    }

    /// Gives a file that another takes the place of a second name, where it may have one.
    fn add_former(&mut self, place: &Place<'_>) {
        let Some(aside) = &mut self.aside else {
            return;
        };
        let Ok(link) = self.way.link_to(place.folder.number(), place.name) else {
            return;
        };
        // The file may be another's, or on another mount.
        let Ok(number) = aside.add(link) else {
            return;
        };
        let last = match aside.sight(number) {
            Ok(sight) if sight.kind == Kind::File => {
                let generation = self.numbers.generation(&sight.identity);
                self.former.add(generation, number).unwrap_or(Some(number))
            }
            _ => Some(number),
        };
        if let Some(last) = last {
            aside.remove(last);
        }
    }

    /// Puts a copy of a file that isn't present in a place on another mount. The copy is whole and
    /// at rest before it has the name, and until then its owner's alone.
    fn put_copy(
        &mut self,
        name: &FileName,
        place: &Place<'_>,
        generation: u64,
    ) -> Result<(), TreeError> {
        let folder = place.folder.number();
        let mark = self.numbers.name(&name.path, name.generation);
        let Ok(copied) = format!(in self.alloc; "/proc/self/fd/{folder}/{COPY}{mark}") else {
            return Err(TreeError::Memory);
        };
        let file = match new_copy(&self.system, copied.as_str()) {
            Ok(file) => file,
            Err(error) => return Err(fault(error.kind())),
        };
        let outcome = self.put_file(place, generation, copied.as_str(), &file);
        if outcome.is_err() {
            let _ = fs::remove_file(&self.system, copied.as_str());
            return outcome;
        }
        // It is present, whatever comes; where it can't be known which it is, its name has none.
        let _ = self.add_turned(name, &file);
        Ok(())
    }

    /// Fills a copy, and puts it in its place.
    fn put_file(
        &mut self,
        place: &Place<'_>,
        generation: u64,
        copied: &str,
        file: &File,
    ) -> Result<(), TreeError> {
        match self.kept.get(generation) {
            Some(from) => content::copy(self.alloc, from, file)?,
            None => return Err(TreeError::System),
        }
        content::sync(file)?;
        let link = self.way.link_to(place.folder.number(), place.name)?;
        match fs::rename(&self.system, copied, link) {
            Ok(()) => Ok(()),
            Err(error) if error.kind() == ErrorKind::IsADirectory => Err(TreeError::NotFile),
            Err(error) => Err(fault(error.kind())),
        }
    }

    /// Knows from now on which file has a name, and keeps it open to read.
    fn add_turned(&mut self, name: &FileName, file: &File) -> Result<(), TreeError> {
        let generation = self.numbers.generation(&seen(file)?.identity);
        self.made
            .add(self.numbers.name(&name.path, name.generation), generation)?;
        self.keep_made(&name.path, generation, file)
    }

    /// The generation that a look shows of the file of a name, where it is known.
    fn wanted(&mut self, name: &FileName) -> Option<u64> {
        if is_of_look(name.generation) {
            return Some(name.generation);
        }
        self.made.by(self.numbers.name(&name.path, name.generation))
    }

    /// Keeps a file open from now on that lies among those that aren't present. Says whether it
    /// does.
    fn keep_stored(&mut self, path: &HostPath, generation: u64) -> Result<bool, TreeError> {
        let Some(stored) = self.stored(generation) else {
            return Ok(false);
        };
        let Some(aside) = &mut self.aside else {
            return Ok(false);
        };
        let Ok(link) = aside.link_to(stored.number) else {
            return Err(TreeError::Memory);
        };
        let owner = self.numbers.owner(path);
        let file = match self.opener.open(link, Purpose::Read, owner) {
            Ok(file) => file,
            Err(error) if is_missing(&error) => return Ok(false),
            Err(_) => return Err(TreeError::System),
        };
        if self.numbers.generation(&seen(&file)?.identity) != generation {
            return Ok(false);
        }
        self.kept.keep(generation, file)?;
        Ok(true)
    }

    /// The file of a generation among those that aren't present.
    fn stored(&mut self, generation: u64) -> Option<Stored> {
        match self.hidden.get(generation) {
            Some(stored) => Some(stored),
            None => self.former.get(generation),
        }
    }

    /// The file of a name, which is kept open from now on where it can be opened to read.
    fn named(&mut self, name: &FileName) -> Result<Named, TreeError> {
        let wanted = self.wanted(name);
        if wanted.is_none() && name.generation != 0 {
            return Err(TreeError::NotFile);
        }
        if let Some(generation) = wanted {
            if self.kept.looks_at(generation) || self.keep_stored(&name.path, generation)? {
                return Ok(Named::Kept(generation));
            }
        }
        let Some(place) = self.way.to(&name.path)? else {
            return Err(TreeError::NotFile);
        };
        let sight = match self.shown(&name.path, &place)? {
            Some(sight) if sight.kind == Kind::File => sight,
            _ => return Err(TreeError::NotFile),
        };
        let generation = self.numbers.generation(&sight.identity);
        if wanted.is_some_and(|wanted| wanted != generation) {
            return Err(TreeError::NotFile);
        }
        if self.kept.looks_at(generation) {
            return Ok(Named::Kept(generation));
        }
        Ok(Named::Shown(sight))
    }

    /// What stands at a place. A file is kept open from then on, where it can be opened to
    /// read; what isn't there any more when it is opened is nothing.
    fn shown(&mut self, path: &HostPath, place: &Place<'_>) -> Result<Option<Sight>, TreeError> {
        if place.name.is_empty() {
            return Ok(None);
        }
        let sight = match self.way.sight(place) {
            Ok(sight) => sight,
            // A place that isn't direct may be outside: then nothing is told of it.
            Err(error) if is_missing(&error) || !place.is_direct() => return Ok(None),
            Err(_) => return Err(TreeError::System),
        };
        if self.way.is_kernels_own(sight.identity.device) {
            return Ok(None);
        }
        match sight.kind {
            Kind::Other => Ok(None),
            Kind::Folder if place.is_direct() => Ok(Some(sight)),
            Kind::Folder => {
                let is_there = self.way.has_folder(place, text_of(path)?)?;
                Ok(is_there.then_some(sight))
            }
            Kind::File => self.kept_or_shown(path, place, sight),
        }
    }

    /// What is shown of a regular file at a place: it is opened, where it isn't kept yet.
    fn kept_or_shown(
        &mut self,
        path: &HostPath,
        place: &Place<'_>,
        sight: Sight,
    ) -> Result<Option<Sight>, TreeError> {
        let generation = self.numbers.generation(&sight.identity);
        if place.is_direct() && self.kept.looks_at(generation) {
            return Ok(Some(sight));
        }
        let file = match self.open_at(path, place, Purpose::Read) {
            Ok(file) => file,
            Err(error) if is_refused(&error) => return Ok(place.is_direct().then_some(sight)),
            Err(error) if is_missing(&error) => return Ok(None),
            Err(_) => return Err(TreeError::System),
        };
        if !self.way.is_the_file(path, place, &file, &sight)? {
            return Ok(None);
        }
        if !self.kept.looks_at(generation) {
            self.kept.keep(generation, file)?;
        }
        Ok(Some(sight))
    }

    /// A file, opened to write: the one that is kept, whatever stands at its path now; or
    /// the one that is shown, where it can't be opened to read.
    fn opened_to_write(&mut self, name: &FileName, named: Named) -> Result<File, TreeError> {
        match named {
            Named::Kept(generation) => {
                let number = match self.kept.used(generation) {
                    Some(file) => file.as_raw_fd(),
                    None => return Err(TreeError::System),
                };
                if let Some(file) = self.written.take(generation) {
                    return Ok(file);
                }
                let owner = self.numbers.owner(&name.path);
                let link = self.way.link_to(number, "")?;
                match self.opener.open(link, Purpose::Write, owner) {
                    Ok(file) => Ok(file),
                    Err(_) => Err(TreeError::System),
                }
            }
            Named::Shown(sight) => {
                let Some(place) = self.way.to(&name.path)? else {
                    return Err(TreeError::NotFile);
                };
                let file = self.open_at(&name.path, &place, Purpose::Write)?;
                if self.way.is_the_file(&name.path, &place, &file, &sight)? {
                    return Ok(file);
                }
                Err(TreeError::NotFile)
            }
        }
    }

    /// Leaves a file open that was written, where it can be found again by its generation. It
    /// doesn't rest any more.
    fn changed(&mut self, named: Named, file: File) {
        if let Named::Kept(generation) = named {
            self.hidden.set_rests(generation, false);
            self.written.put(generation, file);
        }
    }

    /// What is at a place, opened.
    fn open_at(&mut self, path: &HostPath, place: &Place<'_>, why: Purpose) -> io::Result<File> {
        let owner = self.numbers.owner(path);
        match self.way.link_to(place.folder.number(), place.name) {
            Ok(link) => self.opener.open(link, why, owner),
            Err(_) => Err(io::Error::from(ErrorKind::OutOfMemory)),
        }
    }
}

/// An empty file at a path where nothing stands, of its owner alone.
fn new_copy(system: &HostRuntime, path: &str) -> io::Result<File> {
    let mut how = OpenOptions::new();
    how.read(true).write(true).create_new(true).mode(COPY_MODE);
    how.open(system, path)
}

/// The folder of files that aren't present. Where it can't be had, it is told, and files are only
/// served that are.
fn aside_of(system: HostRuntime, alloc: Global, way: &Way) -> Option<Aside> {
    let opened = match way.root() {
        Ok(root) => Aside::open(system, alloc, &root),
        Err(error) => Err(error),
    };
    match opened {
        Ok(aside) => Some(aside),
        Err(error) => {
            let line = format!(in alloc; "docportal: no saving by rename: /.docportal: {error}");
            if let Ok(line) = line {
                let _ = system.eprintln(line.as_str());
            }
            None
        }
    }
}
