//! The files of a tree, by path and by name.

ghost use Rattle.std.specs.Prelude.{◌≡◌, ◌∷◌, ◌++◌, [], None, IfNone, IfSome, IfOk, OnErr, OnOk, cond, option_copied, option_map};
ghost use Rattle.std.specs.List.{filter, list_any, position};
ghost use Rattle.std.specs.List.Sorted.{IsStrictlySortedBy};
ghost use Rattle.portal_base.specs.PathOrder.{path_order};
ghost use Rattle.portal_base.specs.Content.{file_at, file_named, is_above, is_folder, is_named, paths_of};
ghost use Rattle.portal_base.specs.FileChanges.{change_named, new_file, put_file, resized, written};
ghost use Rattle.file_generations.specs.Generations.{all_held, change_held, freshened, put_present, turned};
ghost use Rattle.tree_files.specs.Kept.{NamesDiffer, file_kept, hidden_file, put_hidden, stands_in};

use crate::kept::{HiddenFile, KeptFile};
use portal_base::files::{File, FileName};
use portal_base::list::{ByteList, List};
use portal_base::memory::{Replica, WantOfMemory};
use portal_base::names::HostPath;
use portal_base::names::host_path::{is_root, lies_above};
use std::alloc::Global;
use std::collections::BTreeMap;
use std::marker::Model;
use std::mem;
use std::ops::Bound;

// Paths are ordered part by part, so what lies below a path comes right behind it. A file that isn't
// present is seldom asked for, by its name alone, and stands in a plain list.
/// The present files by path, which contracts see as a list in the order of the paths,
/// and those beside them in the order in which they came.
#[derive(Drop)]
pub struct TreeFiles {
    map: BTreeMap<HostPath, KeptFile>,
    hidden: Vec<HiddenFile>,
}

impl Model for TreeFiles {
    ghost use Rattle.file_generations.specs.Generations.{Held, held_with};
    ghost use Rattle.tree_files.specs.Kept.{files_of, hidden_of};

    ghost Value = { Held };

    ghost view = { λ a. held_with (files_of a.map.entries) (hidden_of a.hidden.items) };
}

impl TreeFiles {
    /// No files.
    pub fn new(alloc: Global) -> TreeFiles
        ensures present { result.present ≡ [] }
        ensures hidden { result.hidden ≡ [] }
    {
        TreeFiles {
            map: BTreeMap::new(alloc),
            hidden: Vec::new(alloc),
        }
    }

    /// The present file of a path.
    pub fn at(&self, path: &HostPath) -> Option<&KeptFile>
        ensures { file_at self.now.present path.now
            ≡ option_map (file_kept path.now) (option_copied result) }
    {
        self.map.get(path)
    }

    /// The file of a name, present or not.
    pub fn named(&self, name: &FileName) -> Option<&KeptFile>
        ensures { file_named (all_held self.now) name.now
            ≡ option_map (file_kept name.now.path) (option_copied result) }
    {
        let hidden = self.hidden.as_slice();
        match hidden_at(hidden, name) {
            Some(at) => Some(&hidden[at].kept),
            None => present_named(&self.map, name),
        }
    }

    /// Says whether a path is a folder: the root, and each path above a present file.
    pub fn is_folder(&self, path: &HostPath) -> bool
        ensures { result ≡ is_folder self.now.present path.now }
    {
        is_root(path.as_bytes()) || self.has_file_below(path)
    }

    /// Says whether a present file lies below a path, which isn't the root.
    ///
    /// The files below a path come right behind it in the order of paths.
    fn has_file_below(&self, path: &HostPath) -> bool
        ensures { result ≡ list_any (λ f. is_above path.now f.path) self.now.present }
    {
        let mut behind = self.map.range((Bound::Excluded(path), Bound::Unbounded));
        match behind.next() {
            Some((first, _)) => lies_above(path.as_bytes(), first.as_bytes()),
            None => false,
        }
    }

    /// The present files at a path and below it, in the order of paths. Of n files it
    /// takes about n steps.
    pub fn in_folder(&self, alloc: Global, path: &HostPath) -> Result<List<File>, WantOfMemory>
        ensures files { IfOk result
            (λ files. files ≡ filter (stands_in path.now) self.now.present) }
        ensures order { IfOk result (λ files. IsStrictlySortedBy path_order (paths_of files)) }
    {
        files_in(alloc, &self.map, path)
    }

    /// Adds a file that is present, where its path has none.
    pub fn add(&mut self, file: File) -> Result<(), WantOfMemory>
        requires { file_at self.old.present file.path ≡ None }
        ensures ok { OnOk result (self.new ≡ put_present file self.old) }
        ensures err { OnErr result (self.new ≡ self.old) }
    {
        let File {
            path,
            generation,
            bytes,
            moment,
        } = file;
        let kept = KeptFile {
            generation,
            bytes,
            moment,
        };
        self.map.insert(path, kept)?;
        Ok(())
    }

    /// Adds a file that isn't present.
    pub fn add_hidden(&mut self, file: File) -> Result<(), WantOfMemory>
        ensures ok { OnOk result (self.new ≡ put_hidden file self.old) }
        ensures err { OnErr result (self.new ≡ self.old) }
    {
        let File {
            path,
            generation,
            bytes,
            moment,
        } = file;
        let kept = KeptFile {
            generation,
            bytes,
            moment,
        };
        self.hidden.push(HiddenFile { path, kept })?;
        Ok(())
    }

    /// Makes an empty file that is present, where its path has none.
    pub fn create(&mut self, alloc: Global, path: &HostPath, now: u64) -> Result<(), WantOfMemory>
        requires { file_at self.old.present path.now ≡ None }
        ensures ok { OnOk result (self.new ≡ put_present (new_file path.now now) self.old) }
        ensures err { OnErr result (self.new ≡ self.old) }
    {
        self.add(File {
            path: path.replica(alloc)?,
            generation: 0,
            bytes: List::new(alloc),
            moment: now,
        })
    }

    /// Makes an empty file of a name that isn't present.
    pub fn freshen(&mut self, alloc: Global, name: &FileName, now: u64) -> Result<(), WantOfMemory>
        ensures ok { OnOk result (self.new ≡ freshened name.now now self.old) }
        ensures err { OnErr result (self.new ≡ self.old) }
    {
        self.add_hidden(File {
            path: name.path.replica(alloc)?,
            generation: name.generation,
            bytes: List::new(alloc),
            moment: now,
        })
    }

    /// Lets the file of a name be the present one of its path.
    pub fn turn(&mut self, alloc: Global, name: &FileName) -> Result<(), WantOfMemory>
        requires { NamesDiffer self.old }
        ensures ok { OnOk result (self.new ≡ turned name.now self.old) }
        ensures err { OnErr result (self.new ≡ self.old) }
    {
        match hidden_at(self.hidden.as_slice(), name) {
            Some(at) => turn_in(alloc, &mut self.map, &mut self.hidden, name, at),
            None => Ok(()),
        }
    }

    /// Writes over the bytes of the file of a name from an offset on.
    pub fn write(
        &mut self,
        name: &FileName,
        offset: u64,
        content: &[u8],
        now: u64,
    ) -> Result<(), WantOfMemory>
        requires { NamesDiffer self.old }
        ensures ok { OnOk result (self.new
            ≡ change_held name.now (written offset content.now now) self.old) }
        ensures err { OnErr result (self.new ≡ self.old) }
    {
        match hidden_at(self.hidden.as_slice(), name) {
            Some(at) => {
                let file = &mut self.hidden[at];
                file.kept.write(offset, content, now)
            }
            None => write_in(&mut self.map, name, offset, content, now),
        }
    }

    /// Cuts or fills the file of a name to a length.
    pub fn set_len(&mut self, name: &FileName, size: u64, now: u64) -> Result<(), WantOfMemory>
        requires { NamesDiffer self.old }
        ensures ok { OnOk result (self.new
            ≡ change_held name.now (resized size now) self.old) }
        ensures err { OnErr result (self.new ≡ self.old) }
    {
        match hidden_at(self.hidden.as_slice(), name) {
            Some(at) => {
                let file = &mut self.hidden[at];
                file.kept.set_len(size, now)
            }
            None => set_len_in(&mut self.map, name, size, now),
        }
    }
}

ghost use Rattle.std.specs.Prelude.{Some, is_some, true};
ghost use Rattle.std.specs.List.{IsDistinct};
ghost use Rattle.file_generations.specs.Generations.{held_with, in_place, same_file};
ghost use Rattle.tree_files.specs.Kept.{files_of, hidden_of};

/// The place of the file of a name among those that aren't present.
fn hidden_at(hidden: &[HiddenFile], name: &FileName) -> Option<usize>
    ensures { result ≡ position (λ f. is_named name.now (hidden_file f)) hidden.now }
{
    hidden.iter().position(|file| is_named(file, name))
}

/// Says whether a file that isn't present has a name.
fn is_named(file: &HiddenFile, name: &FileName) -> bool
    ensures { result ≡ is_named name.now (hidden_file file.now) }
{
    file.path == name.path && file.kept.generation == name.generation
}

/// The present file of a name.
fn present_named<'a>(map: &'a BTreeMap<HostPath, KeptFile>, name: &FileName) -> Option<&'a KeptFile>
    ensures { file_named (files_of map.now.entries) name.now
        ≡ option_map (file_kept name.now.path) (option_copied result) }
{
    // A map's paths stand in their order.
    let _ = map.len();
    match map.get(&name.path) {
        Some(kept) => kept.of_generation(name.generation),
        None => None,
    }
}

/// The files of a map at a path and below it.
fn files_in(
    alloc: Global,
    map: &BTreeMap<HostPath, KeptFile>,
    folder: &HostPath,
) -> Result<List<File>, WantOfMemory>
    ensures files { IfOk result
        (λ files. files ≡ filter (stands_in folder.now) (files_of map.now.entries)) }
    ensures order { IfOk result (λ files. IsStrictlySortedBy path_order (paths_of files)) }
{
    let mut files = List::new(alloc);
    for (path, kept) in map.iter() {
        push_in(alloc, &mut files, folder, path, kept)?;
    }
    Ok(files)
}

/// Adds a file that stands at a path or below it.
fn push_in(
    alloc: Global,
    files: &mut List<File>,
    folder: &HostPath,
    path: &HostPath,
    kept: &KeptFile,
) -> Result<(), WantOfMemory>
    ensures { OnOk result (files.new ≡ files.old
        ++ cond (stands_in folder.now (file_kept path.now kept.now))
        (file_kept path.now kept.now ∷ []) []) }
{
    if *path == *folder || lies_above(folder.as_bytes(), path.as_bytes()) {
        return files.push(kept_file(alloc, path, kept)?);
    }
    Ok(())
}

/// A file of which this is kept.
fn kept_file(alloc: Global, path: &HostPath, kept: &KeptFile) -> Result<File, WantOfMemory>
    ensures { IfOk result (λ file. file ≡ file_kept path.now kept.now) }
{
    Ok(File {
        path: path.replica(alloc)?,
        generation: kept.generation,
        bytes: kept.bytes.replica(alloc)?,
        moment: kept.moment,
    })
}

/// Writes over the bytes of a file in a map by path.
fn write_in(
    map: &mut BTreeMap<HostPath, KeptFile>,
    name: &FileName,
    offset: u64,
    content: &[u8],
    now: u64,
) -> Result<(), WantOfMemory>
    ensures ok { OnOk result (files_of map.new.entries
        ≡ change_named name.now (written offset content.now now) (files_of map.old.entries)) }
    ensures err { OnErr result (files_of map.new.entries ≡ files_of map.old.entries) }
{
    match map.get_mut(&name.path) {
        Some(kept) => kept.write_as(name.generation, offset, content, now),
        None => Ok(()),
    }
}

/// Cuts or fills a file in a map by path to a length.
fn set_len_in(
    map: &mut BTreeMap<HostPath, KeptFile>,
    name: &FileName,
    size: u64,
    now: u64,
) -> Result<(), WantOfMemory>
    ensures ok { OnOk result (files_of map.new.entries
        ≡ change_named name.now (resized size now) (files_of map.old.entries)) }
    ensures err { OnErr result (files_of map.new.entries ≡ files_of map.old.entries) }
{
    match map.get_mut(&name.path) {
        Some(kept) => kept.set_len_as(name.generation, size, now),
        None => Ok(()),
    }
}

/// Lets a file that isn't present be the present one of its path.
fn turn_in(
    alloc: Global,
    map: &mut BTreeMap<HostPath, KeptFile>,
    hidden: &mut Vec<HiddenFile>,
    name: &FileName,
    at: usize,
) -> Result<(), WantOfMemory>
    requires there { Some at ≡ position (λ f. is_named name.now (hidden_file f)) hidden.old.items }
    requires differ { IsDistinct same_file (hidden_of hidden.old.items) }
    ensures ok { OnOk result (held_with (files_of map.new.entries) (hidden_of hidden.new.items)
        ≡ turned name.now (held_with (files_of map.old.entries) (hidden_of hidden.old.items))) }
    ensures err { OnErr result (held_with (files_of map.new.entries) (hidden_of hidden.new.items)
        ≡ held_with (files_of map.old.entries) (hidden_of hidden.old.items)) }
{
    if !map.contains_key(&name.path) {
        return place(alloc, map, hidden, name, at);
    }
    let file = &mut hidden[at];
    exchange(map, &name.path, &mut file.kept);
    Ok(())
}

/// Takes a file out of those that aren't present to its path, which has none.
fn place(
    alloc: Global,
    map: &mut BTreeMap<HostPath, KeptFile>,
    hidden: &mut Vec<HiddenFile>,
    name: &FileName,
    at: usize,
) -> Result<(), WantOfMemory>
    requires free { file_at (files_of map.old.entries) name.now.path ≡ None }
    requires there { Some at ≡ position (λ f. is_named name.now (hidden_file f)) hidden.old.items }
    requires differ { IsDistinct same_file (hidden_of hidden.old.items) }
    ensures ok { OnOk result (held_with (files_of map.new.entries) (hidden_of hidden.new.items)
        ≡ turned name.now (held_with (files_of map.old.entries) (hidden_of hidden.old.items))) }
    ensures err { OnErr result (held_with (files_of map.new.entries) (hidden_of hidden.new.items)
        ≡ held_with (files_of map.old.entries) (hidden_of hidden.old.items)) }
{
    // An empty one takes the place first, so that nothing is lost where there is no room.
    let path = name.path.replica(alloc)?;
    let kept = KeptFile {
        generation: name.generation,
        bytes: List::new(alloc),
        moment: 0,
    };
    map.insert(path, kept)?;
    let mut file = hidden.remove(at);
    exchange(map, &name.path, &mut file.kept);
    Ok(())
}

/// Exchanges what is kept of the file at a path.
fn exchange(map: &mut BTreeMap<HostPath, KeptFile>, path: &HostPath, kept: &mut KeptFile)
    requires { is_some (file_at (files_of map.old.entries) path.now) ≡ true }
    ensures given { file_at (files_of map.old.entries) path.now
        ≡ Some (file_kept path.now kept.new) }
    ensures rest { files_of map.new.entries
        ≡ in_place path.now (file_kept path.now kept.old) (files_of map.old.entries) }
{
    match map.get_mut(path) {
        Some(present) => mem::swap(present, kept),
        // It is there.
        None => (),
    }
}
