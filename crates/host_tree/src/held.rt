//! The files of a tree in memory, present or not.

ghost use Rattle.std.specs.Prelude.{◌≡◌, Some, false, true, cond, IfOk, OnOk, OnErr, option_map, option_copied};
ghost use Rattle.portal_base.specs.Content.{look_at, is_folder, file_at, file_named, IsTree, ArePlaced, paths_of};
ghost use Rattle.portal_base.specs.FolderNames.{names_in};
ghost use Rattle.file_generations.specs.Generations.{Held, all_held, change_held, freshened, held_with, is_held, may_turn, put_present, turned, turned_to};
ghost use Rattle.host_tree.specs.Beside.{AreBeside, AreHeld, are_apart};
ghost use Rattle.host_tree.specs.Devices.{no_files, put_hidden};
ghost use Rattle.host_tree.specs.Stored.{file_of, stored_of};
ghost use Rattle.host_tree.specs.Trees.{DoesHeld, may_be_present, has_file, put_file, without, file_with, written, resized, may_create, may_fresh, new_file, is_done_fault};

use crate::files::{Files, Stored, done};
use crate::hidden::HiddenFiles;
use crate::names::FolderNames;
use crate::tree::TreeDone;
use portal_base::files::{File, FileName, Look};
use portal_base::list::ByteList;
use portal_base::memory::{Replica, WantOfMemory};
use portal_base::names::HostPath;
use std::alloc::Global;
use std::marker::Model;

/// The present files of a tree, and those beside them.
#[derive(Drop)]
pub(crate) struct HeldFiles {
    present: Files,
    hidden: HiddenFiles,
}

impl Model for HeldFiles {
    ghost use Rattle.file_generations.specs.Generations.{Held, held_with};
    ghost use Rattle.host_tree.specs.Beside.{AreBeside};

    ghost Value = { Held };

    ghost view = { λ h. held_with h.present h.hidden };

    ghost invariant = { λ h. AreBeside h.present h.hidden };
}

impl HeldFiles {
    /// No files.
    pub(crate) fn new(alloc: Global) -> HeldFiles
        ensures { result ≡ no_files }
    {
        HeldFiles {
            present: Files::new(alloc),
            hidden: HiddenFiles::new(alloc),
        }
    }

    /// What is true at each moment.
    pub(crate) fn known(&self)
        ensures tree { IsTree self.now.present }
        ensures held { AreHeld self.now }
    {
        self.present.known();
    }

    /// What stands at a path.
    pub(crate) fn look(&self, path: &HostPath) -> Look
        ensures { result ≡ look_at self.now.present path.now }
    {
        self.present.look(path)
    }

    /// Says whether a path is a folder.
    pub(crate) fn is_folder(&self, path: &HostPath) -> bool
        ensures { result ≡ is_folder self.now.present path.now }
    {
        self.present.is_folder(path)
    }

    /// The names by which the paths of the present files below a path go on.
    pub(crate) fn names_below(
        &self,
        alloc: Global,
        path: &HostPath,
    ) -> Result<FolderNames, WantOfMemory>
        ensures { IfOk result (λ names. names ≡ names_in self.now.present path.now) }
    {
        self.present.names_below(alloc, path)
    }

    /// The file of a name.
    pub(crate) fn named(&self, name: &FileName) -> Option<&Stored>
        ensures { option_copied result ≡ option_map stored_of
            (file_named (all_held self.now) name.now) }
    {
        match self.hidden.named(name) {
            Some(stored) => Some(stored),
            None => self.present.named(name),
        }
    }

    /// Says whether a file has the name.
    pub(crate) fn has_named(&self, name: &FileName) -> bool
        ensures { result ≡ is_held self.now name.now }
    {
        match self.named(name) {
            Some(_) => true,
            None => false,
        }
    }

    /// Adds the first file of a path where the paths then are those of a tree.
    pub(crate) fn add(
        &mut self,
        path: HostPath,
        bytes: ByteList,
        moment: u64,
    ) -> Result<(), WantOfMemory>
        requires { ArePlaced (paths_of (put_file (file_with path bytes moment) self.old.present)) }
        ensures ok { OnOk result (self.new ≡ put_present (file_with path bytes moment) self.old) }
        ensures err { OnErr result (self.new ≡ self.old) }
    {
        let stored = Stored {
            generation: 0,
            bytes,
            moment,
        };
        self.present.add(path, stored)?;
        Ok(())
    }

    /// Adds a present file of any generation where the paths then are those of a tree, and
    /// the files beside stay so.
    pub(crate) fn add_present(&mut self, file: File) -> Result<(), WantOfMemory>
        requires placed { ArePlaced (paths_of (put_file file self.old.present)) }
        requires held { AreHeld (put_present file self.old) }
        ensures ok { OnOk result (self.new ≡ put_present file self.old) }
        ensures err { OnErr result (self.new ≡ self.old) }
    {
        let (path, stored) = parts(file);
        self.present.add(path, stored)?;
        Ok(())
    }

    /// Adds a file that isn't present behind those that aren't, where it and they are beside
    /// the present ones.
    pub(crate) fn add_hidden(&mut self, file: File) -> Result<(), WantOfMemory>
        requires { AreHeld (put_hidden file self.old) }
        ensures ok { OnOk result (self.new ≡ put_hidden file self.old) }
        ensures err { OnErr result (self.new ≡ self.old) }
    {
        let (path, stored) = parts(file);
        self.hidden.add(path, stored)?;
        Ok(())
    }

    /// Takes the present file of a path out, which was added last.
    pub(crate) fn take_back(&mut self, path: &HostPath)
        requires tree { IsTree (without path.now self.old.present) }
        requires held { AreBeside (without path.now self.old.present) self.old.hidden }
        ensures { self.new ≡ held_with (without path.now self.old.present) self.old.hidden }
    {
        self.present.take_back(path);
    }

    /// Writes over the bytes of a file from an offset on.
    pub(crate) fn write(
        &mut self,
        name: &FileName,
        offset: u64,
        content: &[u8],
        now: u64,
    ) -> TreeDone
        ensures does { DoesHeld (λ held. is_held held name.now)
            (change_held name.now (written offset content.now now)) self.old result self.new }
        ensures no_fault { is_done_fault result ≡ false }
    {
        write_held(
            &mut self.present,
            &mut self.hidden,
            name,
            offset,
            content,
            now,
        )
    }

    /// Cuts or fills a file to a length.
    pub(crate) fn set_len(&mut self, name: &FileName, size: u64, now: u64) -> TreeDone
        ensures does { DoesHeld (λ held. is_held held name.now)
            (change_held name.now (resized size now)) self.old result self.new }
        ensures no_fault { is_done_fault result ≡ false }
    {
        set_len_held(&mut self.present, &mut self.hidden, name, size, now)
    }

    /// Makes an empty present file where nothing stands and the parent is a folder.
    pub(crate) fn create(&mut self, alloc: Global, path: &HostPath, now: u64) -> TreeDone
        ensures does { DoesHeld (λ held. may_create held.present path.now)
            (put_present (new_file path.now now)) self.old result self.new }
        ensures no_fault { is_done_fault result ≡ false }
    {
        self.present.create(alloc, path, now)
    }

    /// Makes an empty file that isn't present, where the parent is a folder and no
    /// file has the name.
    pub(crate) fn fresh(&mut self, alloc: Global, name: &FileName, now: u64) -> TreeDone
        ensures does { DoesHeld (may_fresh name.now) (freshened name.now now) self.old result
            self.new }
        ensures no_fault { is_done_fault result ≡ false }
    {
        match self.may_fresh(alloc, name) {
            Ok(true) => done(self.add_fresh(alloc, name, now)),
            Ok(false) => TreeDone::NotFile,
            Err(_) => TreeDone::Memory,
        }
    }

    /// Says whether a file of a name may be made that isn't present.
    fn may_fresh(&self, alloc: Global, name: &FileName) -> Result<bool, WantOfMemory>
        ensures { IfOk result (λ may. may ≡ may_fresh name.now self.now) }
    {
        let room = self.present.has_room(alloc, &name.path)?;
        let is_there = self.has_named(name);
        Ok(name.generation != 0 && (room && !is_there))
    }

    /// Puts an empty file behind those that aren't present.
    fn add_fresh(&mut self, alloc: Global, name: &FileName, now: u64) -> Result<(), WantOfMemory>
        requires { may_fresh name.now self.old ≡ true }
        ensures ok { OnOk result (self.new ≡ freshened name.now now self.old) }
        ensures err { OnErr result (self.new ≡ self.old) }
    {
        self.hidden.add_empty(alloc, name, now)?;
        Ok(())
    }

    /// Makes a file its path's present one.
    pub(crate) fn turn(&mut self, alloc: Global, name: &FileName) -> TreeDone
        ensures does { DoesHeld (λ held. may_turn held name.now) (turned name.now) self.old result
            self.new }
        ensures no_fault { is_done_fault result ≡ false }
    {
        self.present.known();
        turn_held(alloc, &mut self.present, &mut self.hidden, name)
    }
}

impl Replica for HeldFiles {
    fn replica(&self, alloc: Global) -> Result<HeldFiles, WantOfMemory> {
        Ok(HeldFiles {
            present: self.present.replica(alloc)?,
            hidden: self.hidden.replica(alloc)?,
        })
    }
}

/// The path of a file, and what is stored of it.
fn parts(file: File) -> (HostPath, Stored)
    ensures { file_of result ≡ file }
{
    let File {
        path,
        generation,
        bytes,
        moment,
    } = file;
    (
        path,
        Stored {
            generation,
            bytes,
            moment,
        },
    )
}

/// Writes over the bytes of a file from an offset on.
fn write_held(
    present: &mut Files,
    hidden: &mut HiddenFiles,
    name: &FileName,
    offset: u64,
    content: &[u8],
    now: u64,
) -> TreeDone
    requires { AreBeside present.old hidden.old }
    ensures does { DoesHeld (λ held. is_held held name.now)
        (change_held name.now (written offset content.now now)) (held_with present.old hidden.old)
        result (held_with present.new hidden.new) }
    ensures no_fault { is_done_fault result ≡ false }
{
    if hidden.has(name) {
        return hidden.write(name, offset, content, now);
    }
    present.write(name, offset, content, now)
}

/// Cuts or fills a file to a length.
fn set_len_held(
    present: &mut Files,
    hidden: &mut HiddenFiles,
    name: &FileName,
    size: u64,
    now: u64,
) -> TreeDone
    requires { AreBeside present.old hidden.old }
    ensures does { DoesHeld (λ held. is_held held name.now)
        (change_held name.now (resized size now)) (held_with present.old hidden.old) result
        (held_with present.new hidden.new) }
    ensures no_fault { is_done_fault result ≡ false }
{
    if hidden.has(name) {
        return hidden.set_len(name, size, now);
    }
    present.set_len(name, size, now)
}

/// Makes a file its path's present one.
fn turn_held(
    alloc: Global,
    present: &mut Files,
    hidden: &mut HiddenFiles,
    name: &FileName,
) -> TreeDone
    requires tree { IsTree present.old }
    requires held { AreBeside present.old hidden.old }
    ensures does { DoesHeld (λ held. may_turn held name.now) (turned name.now)
        (held_with present.old hidden.old) result (held_with present.new hidden.new) }
    ensures no_fault { is_done_fault result ≡ false }
{
    if !hidden.has(name) {
        return stands(present, name);
    }
    if present.is_folder(&name.path) {
        return TreeDone::NotFile;
    }
    done(turn_hidden(alloc, present, hidden, name))
}

/// Done where a file of the name is present.
fn stands(present: &Files, name: &FileName) -> TreeDone
    ensures { result ≡ cond (has_file name.now present.now) TreeDone.Done TreeDone.NotFile }
{
    if present.has_named(name) {
        TreeDone::Done
    } else {
        TreeDone::NotFile
    }
}

/// Makes a file that isn't present its path's present one, in the place of the former,
/// where there is one. Only a path without one takes memory.
fn turn_hidden(
    alloc: Global,
    present: &mut Files,
    hidden: &mut HiddenFiles,
    name: &FileName,
) -> Result<(), WantOfMemory>
    requires there { has_file name.now hidden.old ≡ true }
    requires place { may_be_present present.old name.now.path ≡ true }
    requires apart { are_apart hidden.old ≡ true }
    ensures ok { OnOk result (held_with present.new hidden.new
        ≡ turned_to name.now (file_named hidden.old name.now) (file_at present.old name.now.path)
        (held_with present.old hidden.old)) }
    ensures err { OnErr result (held_with present.new hidden.new
        ≡ held_with present.old hidden.old) }
{
    if present.has_file(&name.path) {
        let former = present.replace(&name.path, Stored::blank(alloc));
        let stored = hidden.exchange(name, former);
        present.replace(&name.path, stored);
        return Ok(());
    }
    present.insert_new(alloc, &name.path, 0)?;
    let stored = hidden.take(name);
    present.replace(&name.path, stored);
    Ok(())
}
