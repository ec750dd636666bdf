//! Files in memory, in the order of their paths.

ghost use Rattle.std.specs.Prelude.{◌≡◌, ◌≤◌, ◌+◌, ◌-◌, [], Some, None, false, true, is_some, IfOk, OnOk, OnErr, length, take, drop, ◌++◌, map, option_map, option_copied};
ghost use Rattle.std.specs.List.{list_any, list_all};
ghost use Rattle.portal_base.specs.Content.{look_at, is_folder, has_room, is_above, file_named, file_at, IsTree, ArePlaced, paths_of};
ghost use Rattle.portal_base.specs.FolderNames.{names_in};
ghost use Rattle.host_tree.specs.Trees.{overlaid, cut_to, bytes_from, DoesFiles, has_file, change_named, written, resized, may_create, put_file, without, new_file, is_done_fault};

use crate::names::FolderNames;
use crate::tree::TreeDone;
use portal_base::files::{FileName, Look};
use portal_base::list::{ByteList, List};
use portal_base::memory::{Replica, WantOfMemory};
use portal_base::names::HostPath;
use portal_base::names::host_path::{is_root, lies_above};
use std::alloc::Global;
use std::collections::BTreeMap;
use std::marker::Model;
use std::mem;
use std::ops::Bound;

/// What is stored of a file.
#[derive(Drop)]
pub(crate) struct Stored {
    pub(crate) generation: u64,
    pub(crate) bytes: ByteList,
    pub(crate) moment: u64,
}

impl Stored {
    ghost use Rattle.host_tree.specs.Stored.{DoesStored, blank, of_generation, stored_written, stored_resized};

    /// An empty one.
    pub(crate) fn blank(alloc: Global) -> Stored
        ensures { result ≡ blank }
    {
        Stored {
            generation: 0,
            bytes: List::new(alloc),
            moment: 0,
        }
    }

    /// It, where it is of this generation.
    pub(crate) fn of_generation(&self, generation: u64) -> Option<&Stored>
        ensures { option_copied result ≡ of_generation generation (Some self.now) }
    {
        if self.generation == generation {
            Some(self)
        } else {
            None
        }
    }

    /// Writes over the bytes from an offset on, where it is of this generation.
    pub(crate) fn write_as(
        &mut self,
        generation: u64,
        offset: u64,
        content: &[u8],
        now: u64,
    ) -> TreeDone
        ensures does { DoesStored generation (stored_written offset content.now now) self.old result
            self.new }
        ensures no_fault { is_done_fault result ≡ false }
    {
        if self.generation != generation {
            return TreeDone::NotFile;
        }
        done(self.write(offset, content, now))
    }

    /// Cuts or fills the bytes to a length, where it is of this generation.
    pub(crate) fn set_len_as(&mut self, generation: u64, size: u64, now: u64) -> TreeDone
        ensures does { DoesStored generation (stored_resized size now) self.old result self.new }
        ensures no_fault { is_done_fault result ≡ false }
    {
        if self.generation != generation {
            return TreeDone::NotFile;
        }
        done(self.set_len(size, now))
    }

    /// Writes over the bytes from an offset on, or changes nothing.
    fn write(&mut self, offset: u64, content: &[u8], now: u64) -> Result<(), WantOfMemory>
        ensures ok { OnOk result (self.new ≡ stored_written offset content.now now self.old) }
        ensures err { OnErr result (self.new ≡ self.old) }
    {
        // As POSIX says of `write`: the moment stays too, wherever the offset lies.
        if content.is_empty() {
            return Ok(());
        }
        overlay(&mut self.bytes, offset, content)?;
        self.moment = now;
        Ok(())
    }

    /// Cuts or fills the bytes to a length, or changes nothing.
    fn set_len(&mut self, size: u64, now: u64) -> Result<(), WantOfMemory>
        ensures ok { OnOk result (self.new ≡ stored_resized size now self.old) }
        ensures err { OnErr result (self.new ≡ self.old) }
    {
        self.bytes.resize(size as usize, 0)?;
        self.moment = now;
        Ok(())
    }
}

/// Writes over bytes from an offset on; what is missing ahead of it is zero.
fn overlay(bytes: &mut ByteList, offset: u64, content: &[u8]) -> Result<(), WantOfMemory>
    ensures ok { OnOk result (bytes.new ≡ overlaid bytes.old offset content.now) }
    ensures err { OnErr result (bytes.new ≡ bytes.old) }
{
    let start = offset as usize;
    let Some(end) = start.checked_add(content.len()) else {
        return Err(WantOfMemory);
    };
    if end > bytes.len() {
        bytes.resize(end, 0)?;
    }
    bytes.overwrite(start, content);
    Ok(())
}

/// The bytes from an offset on, at most `size`.
pub(crate) fn bytes_from(bytes: &[u8], offset: u64, size: u32) -> &[u8]
    ensures { result.now ≡ bytes_from bytes.now offset size }
{
    let start = bytes.len().min(offset as usize);
    let rest = bytes.split_at(start).1;
    let len = rest.len().min(size as usize);
    rest.split_at(len).0
}

impl Replica for Stored {
    fn replica(&self, alloc: Global) -> Result<Stored, WantOfMemory> {
        Ok(Stored {
            generation: self.generation,
            bytes: self.bytes.replica(alloc)?,
            moment: self.moment,
        })
    }
}

// Paths are ordered part by part, as std's `Path` is: a slash comes ahead of every other byte. So
// what lies below a path comes right behind it; in byte order `/a-b` would stand between `/a` and
// `/a/c`.
/// Files by path, which contracts see as a list in the order of the paths.
#[derive(Drop)]
pub(crate) struct Files {
    map: BTreeMap<HostPath, Stored>,
}

impl Model for Files {
    ghost use Rattle.std.specs.Prelude.{List};
    ghost use Rattle.portal_base.specs.declared.files.File.{File};
    ghost use Rattle.portal_base.specs.Content.{IsTree};
    ghost use Rattle.host_tree.specs.Stored.{files_of};

    ghost Value = { List File };

    ghost view = { λ a. files_of a.map.entries };

    ghost invariant = { λ a. IsTree (files_of a.map.entries) };
}

impl Files {
    ghost use Rattle.host_tree.specs.Stored.{file_of, stored_of};
    ghost use Rattle.file_generations.specs.Generations.{in_place};
    ghost use Rattle.host_tree.specs.Trees.{may_be_present};

    /// No files.
    pub(crate) fn new(alloc: Global) -> Files
        ensures { result ≡ [] }
    {
        Files {
            map: BTreeMap::new(alloc),
        }
    }

    /// What is true at each moment.
    pub(crate) fn known(&self)
        ensures { IsTree self.now }
    {
        let _ = &self.map;
    }

    /// What stands at a path.
    pub(crate) fn look(&self, path: &HostPath) -> Look
        ensures { result ≡ look_at self.now path.now }
    {
        match self.map.get(path) {
            Some(stored) => Look::File {
                generation: stored.generation,
                size: stored.bytes.len() as u64,
                moment: stored.moment,
            },
            None => self.look_without_file(path),
        }
    }

    fn look_without_file(&self, path: &HostPath) -> Look
        requires { file_at self.now path.now ≡ None }
        ensures { result ≡ look_at self.now path.now }
    {
        if self.is_folder(path) {
            Look::Folder
        } else {
            Look::Missing
        }
    }

    /// The file of a name.
    pub(crate) fn named(&self, name: &FileName) -> Option<&Stored>
        ensures { option_copied result ≡ option_map stored_of (file_named self.now name.now) }
    {
        match self.map.get(&name.path) {
            Some(stored) => stored.of_generation(name.generation),
            None => None,
        }
    }

    /// Says whether a file has the name.
    pub(crate) fn has_named(&self, name: &FileName) -> bool
        ensures { result ≡ has_file name.now self.now }
    {
        match self.named(name) {
            Some(_) => true,
            None => false,
        }
    }

    /// Says whether a path is a folder.
    pub(crate) fn is_folder(&self, path: &HostPath) -> bool
        ensures { result ≡ is_folder self.now path.now }
    {
        is_root(path.as_bytes()) || self.has_file_below(path)
    }

    /// Says whether a file lies below a path, which isn't the root.
    ///
    /// The files below a path come right behind it in the order of paths.
    fn has_file_below(&self, path: &HostPath) -> bool
        ensures { result ≡ list_any (λ f. is_above path.now f.path) self.now }
    {
        let mut behind = self.map.range((Bound::Excluded(path), Bound::Unbounded));
        match behind.next() {
            Some((first, _)) => lies_above(path.as_bytes(), first.as_bytes()),
            None => false,
        }
    }

    /// The names by which the paths of the files below a path go on.
    pub(crate) fn names_below(
        &self,
        alloc: Global,
        path: &HostPath,
    ) -> Result<FolderNames, WantOfMemory>
        ensures { IfOk result (λ names. names ≡ names_in self.now path.now) }
    {
        let mut names = FolderNames::new(alloc);
        put_paths(alloc, &self.map, path, &mut names)?;
        Ok(names)
    }

    /// Adds a file where the paths then are those of a tree.
    pub(crate) fn add(&mut self, path: HostPath, stored: Stored) -> Result<(), WantOfMemory>
        requires { ArePlaced (paths_of (put_file (file_of (path, stored)) self.old)) }
        ensures ok { OnOk result (self.new ≡ put_file (file_of (path, stored)) self.old) }
        ensures err { OnErr result (self.new ≡ self.old) }
    {
        let _ = path.as_bytes();
        self.map.insert(path, stored)?;
        Ok(())
    }

    /// Takes the file of a path out, which was added last.
    pub(crate) fn take_back(&mut self, path: &HostPath)
        requires { IsTree (without path.now self.old) }
        ensures { self.new ≡ without path.now self.old }
    {
        self.map.remove(path);
    }

    /// Writes over the bytes of a file from an offset on.
    pub(crate) fn write(
        &mut self,
        name: &FileName,
        offset: u64,
        content: &[u8],
        now: u64,
    ) -> TreeDone
        ensures does { DoesFiles (has_file name.now)
            (change_named name.now (written offset content.now now)) (Some self.old) result
            (Some self.new) }
        ensures no_fault { is_done_fault result ≡ false }
    {
        write_in(&mut self.map, name, offset, content, now)
    }

    /// Cuts or fills a file to a length.
    pub(crate) fn set_len(&mut self, name: &FileName, size: u64, now: u64) -> TreeDone
        ensures does { DoesFiles (has_file name.now) (change_named name.now (resized size now))
            (Some self.old) result (Some self.new) }
        ensures no_fault { is_done_fault result ≡ false }
    {
        set_len_in(&mut self.map, name, size, now)
    }

    /// Makes an empty file where nothing stands and the parent is a folder.
    pub(crate) fn create(&mut self, alloc: Global, path: &HostPath, now: u64) -> TreeDone
        ensures does { DoesFiles (λ files. may_create files path.now)
            (put_file (new_file path.now now)) (Some self.old) result (Some self.new) }
        ensures no_fault { is_done_fault result ≡ false }
    {
        match self.may_create(alloc, path) {
            Ok(true) => done(self.insert_new(alloc, path, now)),
            Ok(false) => TreeDone::NotFile,
            Err(_) => TreeDone::Memory,
        }
    }

    /// Says whether nothing stands at a path and its parent is a folder.
    fn may_create(&self, alloc: Global, path: &HostPath) -> Result<bool, WantOfMemory>
        ensures { IfOk result (λ may. may ≡ may_create self.now path.now) }
    {
        if self.map.contains_key(path) || self.is_folder(path) {
            return Ok(false);
        }
        let room = self.has_room(alloc, path)?;
        Ok(room)
    }

    /// Says whether the parent of a path is a folder.
    pub(crate) fn has_room(&self, alloc: Global, path: &HostPath) -> Result<bool, WantOfMemory>
        ensures { IfOk result (λ room. room ≡ has_room self.now path.now) }
    {
        Ok(self.is_folder(&path.parent(alloc)?))
    }

    /// Says whether a file may have the path: it is no folder, and lies in one.
    pub(crate) fn may_have(&self, alloc: Global, path: &HostPath) -> Result<bool, WantOfMemory>
        ensures { IfOk result (λ may. may ≡ may_be_present self.now path.now) }
    {
        if self.is_folder(path) {
            return Ok(false);
        }
        let room = self.has_room(alloc, path)?;
        Ok(room)
    }

    /// Says whether a file has the path.
    pub(crate) fn has_file(&self, path: &HostPath) -> bool
        ensures { result ≡ is_some (file_at self.now path.now) }
    {
        self.map.contains_key(path)
    }

    /// Puts what is stored of a file in the place of another, and gives that.
    pub(crate) fn replace(&mut self, path: &HostPath, stored: Stored) -> Stored
        requires { is_some (file_at self.old path.now) ≡ true }
        ensures given { Some result ≡ option_map stored_of (file_at self.old path.now) }
        ensures rest { self.new ≡ in_place path.now (file_of (path.now, stored)) self.old }
    {
        replace_in(&mut self.map, path, stored)
    }

    /// Puts an empty file at a path where one may be made.
    pub(crate) fn insert_new(
        &mut self,
        alloc: Global,
        path: &HostPath,
        now: u64,
    ) -> Result<(), WantOfMemory>
        requires { may_create self.old path.now ≡ true }
        ensures ok { OnOk result (self.new ≡ put_file (new_file path.now now) self.old) }
        ensures err { OnErr result (self.new ≡ self.old) }
    {
        let _ = path.as_bytes();
        let stored = Stored {
            generation: 0,
            bytes: List::new(alloc),
            moment: now,
        };
        self.map.insert(path.replica(alloc)?, stored)?;
        Ok(())
    }
}

impl Replica for Files {
    fn replica(&self, alloc: Global) -> Result<Files, WantOfMemory> {
        let map = replica_of(alloc, &self.map)?;
        Ok(Files { map })
    }
}

ghost use Rattle.std.specs.BTreeMap.{keys};
ghost use Rattle.host_tree.specs.Stored.{file_of, files_of, stored_of};
ghost use Rattle.file_generations.specs.Generations.{in_place};

/// A map by path with the same entries.
fn replica_of(
    alloc: Global,
    map: &BTreeMap<HostPath, Stored>,
) -> Result<BTreeMap<HostPath, Stored>, WantOfMemory>
    ensures { IfOk result (λ copy. copy.entries ≡ map.now.entries) }
{
    let mut copy = BTreeMap::new(alloc);
    for (path, stored) in map.iter() {
        copy.insert(path.replica(alloc)?, stored.replica(alloc)?)?;
    }
    Ok(copy)
}

ghost use Rattle.std.specs.Prelude.{fold, MatchOption};
ghost use Rattle.portal_base.specs.FolderNames.{is_below, length_above, put_path};

/// Puts the names by which the paths in a map go on below a folder among others.
fn put_paths(
    alloc: Global,
    map: &BTreeMap<HostPath, Stored>,
    folder: &HostPath,
    names: &mut FolderNames,
) -> Result<(), WantOfMemory>
    ensures { OnOk result (names.new ≡ fold (put_path folder.now) names.old (keys map.now)) }
{
    let above = folder.as_bytes();
    for path in map.keys() {
        let bytes = path.as_bytes();
        put_path(alloc, above, bytes, names)?;
    }
    Ok(())
}

/// Puts the name by which a path goes on below a folder, where it lies below it.
fn put_path(
    alloc: Global,
    folder: &[u8],
    path: &[u8],
    names: &mut FolderNames,
) -> Result<(), WantOfMemory>
    ensures { OnOk result (names.new ≡ put_path folder.now names.old path.now) }
{
    match behind_folder(folder, path) {
        Some(rest) => names.put_first_part(alloc, rest),
        None => Ok(()),
    }
}

/// What of a path stands behind that of a folder and a slash, where it lies below
/// the folder.
fn behind_folder<'a>(folder: &[u8], path: &'a [u8]) -> Option<&'a [u8]>
    ensures { MatchOption result (is_below folder.now path.now ≡ false)
        (λ rest. (is_below folder.now path.now ≡ true)
        × (rest.now ≡ drop (length_above folder.now) path.now)) }
{
    if is_root(folder) {
        return Some(behind(path, 1));
    }
    if lies_above(folder, path) {
        return Some(behind(path, folder.len() + 1));
    }
    None
}

/// The bytes from a place on.
fn behind(bytes: &[u8], start: usize) -> &[u8]
    ensures { result.now ≡ drop start bytes.now }
{
    bytes.split_at(bytes.len().min(start)).1
}

/// Writes over the bytes of a file in a map by path.
fn write_in(
    map: &mut BTreeMap<HostPath, Stored>,
    name: &FileName,
    offset: u64,
    content: &[u8],
    now: u64,
) -> TreeDone
    ensures does { DoesFiles (has_file name.now)
        (change_named name.now (written offset content.now now))
        (Some (files_of map.old.entries)) result (Some (files_of map.new.entries)) }
    ensures no_fault { is_done_fault result ≡ false }
    ensures keys { keys map.new ≡ keys map.old }
{
    match map.get_mut(&name.path) {
        Some(stored) => stored.write_as(name.generation, offset, content, now),
        None => TreeDone::NotFile,
    }
}

/// Cuts or fills a file in a map by path to a length.
fn set_len_in(
    map: &mut BTreeMap<HostPath, Stored>,
    name: &FileName,
    size: u64,
    now: u64,
) -> TreeDone
    ensures does { DoesFiles (has_file name.now) (change_named name.now (resized size now))
        (Some (files_of map.old.entries)) result (Some (files_of map.new.entries)) }
    ensures no_fault { is_done_fault result ≡ false }
    ensures keys { keys map.new ≡ keys map.old }
{
    match map.get_mut(&name.path) {
        Some(stored) => stored.set_len_as(name.generation, size, now),
        None => TreeDone::NotFile,
    }
}

/// Puts what is stored of a file in a map by path in the place of another.
fn replace_in(map: &mut BTreeMap<HostPath, Stored>, path: &HostPath, stored: Stored) -> Stored
    requires { is_some (file_at (files_of map.old.entries) path.now) ≡ true }
    ensures given { Some result
        ≡ option_map stored_of (file_at (files_of map.old.entries) path.now) }
    ensures rest { files_of map.new.entries
        ≡ in_place path.now (file_of (path.now, stored)) (files_of map.old.entries) }
    ensures keys { keys map.new ≡ keys map.old }
{
    match map.get_mut(path) {
        Some(there) => mem::replace(there, stored),
        // It is there.
        None => stored,
    }
}

/// Done, or no memory.
pub(crate) fn done(outcome: Result<(), WantOfMemory>) -> TreeDone
    ensures ok { OnOk outcome (result ≡ TreeDone.Done) }
    ensures err { OnErr outcome (result ≡ TreeDone.Memory) }
{
    match outcome {
        Ok(()) => TreeDone::Done,
        Err(_) => TreeDone::Memory,
    }
}
