//! The files of a tree in memory that aren't present.

ghost use Rattle.std.specs.Prelude.{◌≡◌, [], ◌∷◌, ◌++◌, Some, false, true, IfOk, OnOk, OnErr, option_map, option_copied};
ghost use Rattle.std.specs.List.{find, position, position_or_len};
ghost use Rattle.portal_base.specs.Content.{file_named};
ghost use Rattle.host_tree.specs.Stored.{file_of, files_of, is_stored, stored_of};
ghost use Rattle.file_generations.specs.Generations.{fresh_file};
ghost use Rattle.host_tree.specs.Trees.{DoesFiles, has_file, change_first, without_first, written, resized, is_done_fault};

use crate::files::Stored;
use crate::tree::TreeDone;
use portal_base::files::FileName;
use portal_base::list::List;
use portal_base::memory::{Replica, WantOfMemory};
use portal_base::names::HostPath;
use std::alloc::Global;
use std::marker::Model;
use std::mem;

/// Files that aren't present, which contracts see as a list, in the order in which
/// their places were taken.
#[derive(Drop)]
pub(crate) struct HiddenFiles {
    // There are few of them beside those that are present, so they are searched.
    files: Vec<(HostPath, Stored)>,
}

impl Model for HiddenFiles {
    ghost use Rattle.std.specs.Prelude.{List};
    ghost use Rattle.portal_base.specs.declared.files.File.{File};
    ghost use Rattle.host_tree.specs.Stored.{files_of};

    ghost Value = { List File };

    ghost view = { λ a. files_of a.files.items };
}

impl HiddenFiles {
    /// No files.
    pub(crate) fn new(alloc: Global) -> HiddenFiles
        ensures { result ≡ [] }
    {
        HiddenFiles {
            files: Vec::new(alloc),
        }
    }

    /// The file of a name.
    pub(crate) fn named(&self, name: &FileName) -> Option<&Stored>
        ensures { option_copied result ≡ option_map stored_of (file_named self.now name.now) }
    {
        match find_named(self.files.as_slice(), name) {
            Some(entry) => Some(&entry.1),
            None => None,
        }
    }

    /// Says whether a file has the name.
    pub(crate) fn has(&self, name: &FileName) -> bool
        ensures { result ≡ has_file name.now self.now }
    {
        match self.named(name) {
            Some(_) => true,
            None => false,
        }
    }

    /// Writes over the bytes of a file from an offset on.
    pub(crate) fn write(
        &mut self,
        name: &FileName,
        offset: u64,
        content: &[u8],
        now: u64,
    ) -> TreeDone
        ensures does { DoesFiles (has_file name.now)
            (change_first name.now (written offset content.now now)) (Some self.old) result
            (Some self.new) }
        ensures no_fault { is_done_fault result ≡ false }
    {
        write_in(&mut self.files, name, offset, content, now)
    }

    /// Cuts or fills a file to a length.
    pub(crate) fn set_len(&mut self, name: &FileName, size: u64, now: u64) -> TreeDone
        ensures does { DoesFiles (has_file name.now) (change_first name.now (resized size now))
            (Some self.old) result (Some self.new) }
        ensures no_fault { is_done_fault result ≡ false }
    {
        set_len_in(&mut self.files, name, size, now)
    }

    /// Puts a file behind the others.
    pub(crate) fn add(&mut self, path: HostPath, stored: Stored) -> Result<(), WantOfMemory>
        ensures ok { OnOk result (self.new ≡ self.old ++ file_of (path, stored) ∷ []) }
        ensures err { OnErr result (self.new ≡ self.old) }
    {
        self.files.push((path, stored))?;
        Ok(())
    }

    /// Puts an empty file behind the others.
    pub(crate) fn add_empty(
        &mut self,
        alloc: Global,
        name: &FileName,
        now: u64,
    ) -> Result<(), WantOfMemory>
        ensures ok { OnOk result (self.new ≡ self.old ++ fresh_file name.now now ∷ []) }
        ensures err { OnErr result (self.new ≡ self.old) }
    {
        let stored = Stored {
            generation: name.generation,
            bytes: List::new(alloc),
            moment: now,
        };
        self.files.push((name.path.replica(alloc)?, stored))?;
        Ok(())
    }

    /// Puts a file in the place of the one of a name, and gives that one.
    pub(crate) fn exchange(&mut self, name: &FileName, former: Stored) -> Stored
        requires { has_file name.now self.old ≡ true }
        ensures given { Some result ≡ option_map stored_of (file_named self.old name.now) }
        ensures rest { self.new
            ≡ change_first name.now (λ g. file_of (name.now.path, former)) self.old }
    {
        exchange_in(&mut self.files, name, former)
    }

    /// Takes the file of a name out.
    pub(crate) fn take(&mut self, name: &FileName) -> Stored
        requires { has_file name.now self.old ≡ true }
        ensures given { Some result ≡ option_map stored_of (file_named self.old name.now) }
        ensures rest { self.new ≡ without_first name.now self.old }
    {
        let place = place_of(self.files.as_slice(), name);
        let (_, stored) = self.files.remove(place);
        stored
    }
}

impl Replica for HiddenFiles {
    fn replica(&self, alloc: Global) -> Result<HiddenFiles, WantOfMemory> {
        Ok(HiddenFiles {
            files: replica_of(alloc, self.files.as_slice())?,
        })
    }
}

/// The same paths and files.
fn replica_of(
    alloc: Global,
    files: &[(HostPath, Stored)],
) -> Result<Vec<(HostPath, Stored)>, WantOfMemory>
    ensures { IfOk result (λ copy. copy.items ≡ files.now) }
{
    let mut copy = Vec::new(alloc);
    for entry in files {
        copy.push((entry.0.replica(alloc)?, entry.1.replica(alloc)?))?;
    }
    Ok(copy)
}

/// Says whether it is the file of a name.
fn has_name(entry: &(HostPath, Stored), name: &FileName) -> bool
    ensures { result ≡ is_stored name.now entry.now }
{
    entry.0 == name.path && entry.1.generation == name.generation
}

/// The file of a name.
fn find_named<'a>(
    files: &'a [(HostPath, Stored)],
    name: &FileName,
) -> Option<&'a (HostPath, Stored)>
    ensures { option_copied result ≡ find (is_stored name.now) files.now }
{
    files.iter().find(|entry| has_name(entry, name))
}

/// The place of the file of a name, or the number of files where none has it.
fn place_of(files: &[(HostPath, Stored)], name: &FileName) -> usize
    ensures { result ≡ position_or_len (is_stored name.now) files.now }
{
    match found_at(files, name) {
        Some(place) => place,
        None => files.len(),
    }
}

/// Where the file of a name stands.
fn found_at(files: &[(HostPath, Stored)], name: &FileName) -> Option<usize>
    ensures { result ≡ position (is_stored name.now) files.now }
{
    files.iter().position(|entry| has_name(entry, name))
}

/// Writes over the bytes of a file from an offset on.
fn write_in(
    files: &mut Vec<(HostPath, Stored)>,
    name: &FileName,
    offset: u64,
    content: &[u8],
    now: u64,
) -> TreeDone
    ensures does { DoesFiles (has_file name.now)
        (change_first name.now (written offset content.now now))
        (Some (files_of files.old.items)) result (Some (files_of files.new.items)) }
    ensures no_fault { is_done_fault result ≡ false }
{
    let place = place_of(files.as_slice(), name);
    if place >= files.len() {
        return TreeDone::NotFile;
    }
    let entry = &mut files[place];
    entry.1.write_as(name.generation, offset, content, now)
}

/// Cuts or fills a file to a length.
fn set_len_in(files: &mut Vec<(HostPath, Stored)>, name: &FileName, size: u64, now: u64) -> TreeDone
    ensures does { DoesFiles (has_file name.now) (change_first name.now (resized size now))
        (Some (files_of files.old.items)) result (Some (files_of files.new.items)) }
    ensures no_fault { is_done_fault result ≡ false }
{
    let place = place_of(files.as_slice(), name);
    if place >= files.len() {
        return TreeDone::NotFile;
    }
    let entry = &mut files[place];
    entry.1.set_len_as(name.generation, size, now)
}

/// Puts what is stored of a file in the place of another.
fn exchange_in(files: &mut Vec<(HostPath, Stored)>, name: &FileName, former: Stored) -> Stored
    requires { has_file name.now (files_of files.old.items) ≡ true }
    ensures given { Some result
        ≡ option_map stored_of (file_named (files_of files.old.items) name.now) }
    ensures rest { files_of files.new.items
        ≡ change_first name.now (λ g. file_of (name.now.path, former)) (files_of files.old.items) }
{
    let place = place_of(files.as_slice(), name);
    let entry = &mut files[place];
    mem::replace(&mut entry.1, former)
}
