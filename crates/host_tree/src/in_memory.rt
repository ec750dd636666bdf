//! Trees in memory, which tell what they have.

ghost use Rattle.std.specs.Prelude.{◌≡◌, OnOk, OnErr, Some, false};
ghost use Rattle.portal_base.specs.Content.{IsTree, ArePlaced, paths_of};
ghost use Rattle.portal_base.specs.Calls.{uncalled};
ghost use Rattle.host_tree.specs.Beside.{AreHeld};
ghost use Rattle.host_tree.specs.Trees.{put_file, file_with};
ghost use Rattle.host_tree.specs.Devices.{no_files, put_hidden, quiet_with_hidden, quiet_with_present, with_file};
ghost use Rattle.host_tree.specs.Trees.{unnoted};

use crate::files::bytes_from;
use crate::held::HeldFiles;
use crate::made::CallsMade;
use crate::tree::{AttrAnswer, HostTree, ListAnswer, LookAnswer, TreeCall, TreeDone, TreeRead};
use portal_base::files::{ChildName, File, FileName};
use portal_base::list::{ByteList, List};
use portal_base::memory::{Replica, WantOfMemory};
use portal_base::names::HostPath;
use std::alloc::Global;
use std::marker::Model;

/// A tree in memory, some of whose calls fail.
#[derive(Drop)]
pub struct MemoryTree {
    alloc: Global,
    // Contracts speak of the files that it began with too, so each file takes its room twice.
    began: HeldFiles,
    files: HeldFiles,
    made: CallsMade,
}

impl Model for MemoryTree {
    ghost use Rattle.host_tree.specs.Devices.{TreeState};

    ghost Value = { TreeState };

    ghost view = { λ t. record {
      began = t.began;
      files = t.files;
      count = t.made.count;
      noted = t.made.noted;
    } };
}

impl MemoryTree {
    /// A tree without files, whose calls of these numbers fail, counted from
    /// 1.
    pub fn new(alloc: Global, fails: List<u64>) -> MemoryTree
        ensures { result ≡ record {
          began = no_files;
          files = no_files;
          count = uncalled fails;
          noted = unnoted;
        } }
    {
        MemoryTree {
            alloc,
            began: HeldFiles::new(alloc),
            files: HeldFiles::new(alloc),
            made: CallsMade::new(alloc, fails),
        }
    }

    /// Adds the first file of a path to those that the tree began with, before its first
    /// call.
    pub fn add_file(
        &mut self,
        path: HostPath,
        content: ByteList,
        moment: u64,
    ) -> Result<(), WantOfMemory>
        requires fresh { self.old.count.calls.made ≡ 0 }
        requires began { ArePlaced
            (paths_of (put_file (file_with path content moment) self.old.began.present)) }
        requires files { ArePlaced
            (paths_of (put_file (file_with path content moment) self.old.files.present)) }
        ensures ok { OnOk result (self.new ≡ with_file (file_with path content moment) self.old) }
        ensures err { OnErr result (self.new ≡ self.old) }
    {
        add_to_both(
            self.alloc,
            &mut self.began,
            &mut self.files,
            path,
            content,
            moment,
        )
    }

    /// Has the tree note the kinds of its first `room` calls, before the first
    /// of them.
    pub fn note_calls(&mut self, room: u32) -> Result<(), WantOfMemory>
        requires { self.old.count.calls.made ≡ 0 }
        ensures ok { OnOk result (self.new ≡ record self.old {
          noted = record { room = room; kinds = self.old.noted.kinds };
        }) }
        ensures err { OnErr result (self.new ≡ self.old) }
    {
        self.made.take_room(room)
    }
}

impl HostTree for MemoryTree {
    ghost use Rattle.host_tree.specs.Devices.{tree_of};

    ghost is = { tree_of };

    fn look(&mut self, path: &HostPath) -> LookAnswer {
        if self.made.next_fails(TreeCall::Look) {
            return LookAnswer::Failed;
        }
        LookAnswer::Is(self.files.look(path))
    }

    fn attr(&mut self, file: &FileName) -> AttrAnswer {
        if self.made.next_fails(TreeCall::Attr) {
            return AttrAnswer::Failed;
        }
        attributes(&self.files, file)
    }

    fn list(&mut self, path: &HostPath) -> ListAnswer {
        if self.made.next_fails(TreeCall::List) {
            return ListAnswer::Failed;
        }
        listed(self.alloc, &self.files, path)
    }

    fn read(&mut self, file: &FileName, offset: u64, size: u32) -> TreeRead {
        if self.made.next_fails(TreeCall::Read) {
            return TreeRead::Failed;
        }
        content(self.alloc, &self.files, file, offset, size)
    }

    fn write(&mut self, file: &FileName, offset: u64, content: &[u8], now: u64) -> TreeDone {
        if self.made.next_fails(TreeCall::Write) {
            return TreeDone::Failed;
        }
        self.files.write(file, offset, content, now)
    }

    fn set_len(&mut self, file: &FileName, size: u64, now: u64) -> TreeDone {
        if self.made.next_fails(TreeCall::SetLen) {
            return TreeDone::Failed;
        }
        self.files.set_len(file, size, now)
    }

    fn create(&mut self, path: &HostPath, now: u64) -> TreeDone {
        if self.made.next_fails(TreeCall::Create) {
            return TreeDone::Failed;
        }
        self.files.create(self.alloc, path, now)
    }

    fn fresh(&mut self, file: &FileName, now: u64) -> TreeDone {
        if self.made.next_fails(TreeCall::Fresh) {
            return TreeDone::Failed;
        }
        self.files.fresh(self.alloc, file, now)
    }

    fn turn(&mut self, file: &FileName) -> TreeDone {
        if self.made.next_fails(TreeCall::Turn) {
            return TreeDone::Failed;
        }
        self.files.turn(self.alloc, file)
    }

    fn sync(&mut self, file: &FileName) -> TreeDone {
        if self.made.next_fails(TreeCall::Sync) {
            return TreeDone::Failed;
        }
        rest(&self.files, file)
    }

    fn settle(&mut self) -> Result<(), WantOfMemory> {
        self.began = self.files.replica(self.alloc)?;
        Ok(())
    }

    fn known(&self) {
        self.began.known();
        self.files.known();
        self.made.known();
    }
}

/// A tree in memory that never fails: its count of faults is 0.
#[derive(Drop)]
pub struct QuietTree {
    alloc: Global,
    began: HeldFiles,
    files: HeldFiles,
    made: u64,
}

impl Model for QuietTree {
    ghost use Rattle.host_tree.specs.Devices.{QuietState};

    ghost Value = { QuietState };

    ghost view = { λ t. record { began = t.began; files = t.files; made = t.made } };
}

impl QuietTree {
    /// A tree without files.
    pub fn new(alloc: Global) -> QuietTree
        ensures { result ≡ record { began = no_files; files = no_files; made = 0 } }
    {
        QuietTree {
            alloc,
            began: HeldFiles::new(alloc),
            files: HeldFiles::new(alloc),
            made: 0,
        }
    }

    /// Adds a present file of any generation to those that the tree has, before its first
    /// call. [`HostTree::settle`] takes it among those that the tree began with.
    pub fn add_present(&mut self, file: File) -> Result<(), WantOfMemory>
        requires fresh { self.old.made ≡ 0 }
        requires placed { ArePlaced (paths_of (put_file file self.old.files.present)) }
        requires held { AreHeld (put_present file self.old.files) }
        ensures ok { OnOk result (self.new ≡ quiet_with_present file self.old) }
        ensures err { OnErr result (self.new ≡ self.old) }
    {
        self.files.add_present(file)
    }

    /// Adds a file that isn't present to those that the tree has, behind the others, before
    /// its first call. [`HostTree::settle`] takes it among those that the tree began with.
    pub fn add_hidden(&mut self, file: File) -> Result<(), WantOfMemory>
        requires fresh { self.old.made ≡ 0 }
        requires held { AreHeld (put_hidden file self.old.files) }
        ensures ok { OnOk result (self.new ≡ quiet_with_hidden file self.old) }
        ensures err { OnErr result (self.new ≡ self.old) }
    {
        self.files.add_hidden(file)
    }
}

impl HostTree for QuietTree {
    ghost use Rattle.host_tree.specs.Devices.{quiet_tree_of};

    ghost is = { quiet_tree_of };

    fn look(&mut self, path: &HostPath) -> LookAnswer {
        self.made = self.made.saturating_add(1);
        LookAnswer::Is(self.files.look(path))
    }

    fn attr(&mut self, name: &FileName) -> AttrAnswer {
        self.made = self.made.saturating_add(1);
        attributes(&self.files, name)
    }

    fn list(&mut self, path: &HostPath) -> ListAnswer {
        self.made = self.made.saturating_add(1);
        listed(self.alloc, &self.files, path)
    }

    fn read(&mut self, name: &FileName, offset: u64, size: u32) -> TreeRead {
        self.made = self.made.saturating_add(1);
        content(self.alloc, &self.files, name, offset, size)
    }

    fn write(&mut self, name: &FileName, offset: u64, content: &[u8], now: u64) -> TreeDone {
        self.made = self.made.saturating_add(1);
        self.files.write(name, offset, content, now)
    }

    fn set_len(&mut self, name: &FileName, size: u64, now: u64) -> TreeDone {
        self.made = self.made.saturating_add(1);
        self.files.set_len(name, size, now)
    }

    fn create(&mut self, path: &HostPath, now: u64) -> TreeDone {
        self.made = self.made.saturating_add(1);
        self.files.create(self.alloc, path, now)
    }

    fn fresh(&mut self, name: &FileName, now: u64) -> TreeDone {
        self.made = self.made.saturating_add(1);
        self.files.fresh(self.alloc, name, now)
    }

    fn turn(&mut self, name: &FileName) -> TreeDone {
        self.made = self.made.saturating_add(1);
        self.files.turn(self.alloc, name)
    }

    fn sync(&mut self, name: &FileName) -> TreeDone {
        self.made = self.made.saturating_add(1);
        rest(&self.files, name)
    }

    fn settle(&mut self) -> Result<(), WantOfMemory> {
        self.began = self.files.replica(self.alloc)?;
        Ok(())
    }

    fn known(&self) {
        self.began.known();
        self.files.known();
    }
}

ghost use Rattle.std.specs.Prelude.{IfOk, MatchOption, true};
ghost use Rattle.portal_base.specs.Content.{is_folder};
ghost use Rattle.portal_base.specs.FolderNames.{AreInOrder, names_in};
ghost use Rattle.file_generations.specs.Generations.{is_held, put_present};
ghost use Rattle.host_tree.specs.Trees.{Attrs, Gets, Lists, Does, as_before, is_attr_fault, is_list_fault, is_read_fault, is_done_fault};

/// Adds a file to two lists of files, or to none of them.
fn add_to_both(
    alloc: Global,
    began: &mut HeldFiles,
    files: &mut HeldFiles,
    path: HostPath,
    content: ByteList,
    moment: u64,
) -> Result<(), WantOfMemory>
    requires began { ArePlaced
        (paths_of (put_file (file_with path content moment) began.old.present)) }
    requires files { ArePlaced
        (paths_of (put_file (file_with path content moment) files.old.present)) }
    ensures ok { OnOk result ((began.new ≡ put_present (file_with path content moment) began.old)
        × (files.new ≡ put_present (file_with path content moment) files.old)) }
    ensures err { OnErr result ((began.new ≡ began.old) × (files.new ≡ files.old)) }
{
    let first_path = path.replica(alloc)?;
    let second_path = path.replica(alloc)?;
    let first_content = content.replica(alloc)?;
    began.known();
    began.add(first_path, first_content, moment)?;
    if files.add(second_path, content, moment).is_err() {
        began.take_back(&path);
        return Err(WantOfMemory);
    }
    Ok(())
}

/// The length and the moment of a file.
fn attributes(files: &HeldFiles, name: &FileName) -> AttrAnswer
    ensures attrs { Attrs (Some files.now) name.now result }
    ensures no_fault { is_attr_fault result ≡ false }
{
    match files.named(name) {
        Some(stored) => AttrAnswer::Is {
            size: stored.bytes.len() as u64,
            moment: stored.moment,
        },
        None => AttrAnswer::NotFile,
    }
}

/// The names in a folder.
fn listed(alloc: Global, files: &HeldFiles, path: &HostPath) -> ListAnswer
    ensures lists { Lists (Some files.now) path.now result }
    ensures no_fault { is_list_fault result ≡ false }
{
    match names_in(alloc, files, path) {
        Ok(Some(names)) => ListAnswer::Names(names),
        Ok(None) => ListAnswer::NotFolder,
        Err(_) => ListAnswer::Memory,
    }
}

/// The names in a folder; none where there is no folder.
fn names_in(
    alloc: Global,
    files: &HeldFiles,
    path: &HostPath,
) -> Result<Option<List<ChildName>>, WantOfMemory>
    ensures { IfOk result (λ found. MatchOption found (is_folder files.now.present path.now ≡ false)
        (λ names. AreInOrder names × (is_folder files.now.present path.now ≡ true)
        × (names ≡ names_in files.now.present path.now))) }
{
    if !files.is_folder(path) {
        return Ok(None);
    }
    let names = files.names_below(alloc, path)?;
    Ok(Some(names.into_list(alloc)?))
}

/// Bytes of a file.
fn content(alloc: Global, files: &HeldFiles, name: &FileName, offset: u64, size: u32) -> TreeRead
    ensures gets { Gets (Some files.now) name.now offset size result }
    ensures no_fault { is_read_fault result ≡ false }
{
    let Some(stored) = files.named(name) else {
        return TreeRead::NotFile;
    };
    match List::copied(alloc, bytes_from(stored.bytes.as_slice(), offset, size)) {
        Ok(bytes) => TreeRead::Got(bytes),
        Err(_) => TreeRead::Memory,
    }
}

/// Bytes in memory are at rest.
fn rest(files: &HeldFiles, name: &FileName) -> TreeDone
    ensures does { Does (λ held. is_held held name.now) as_before (Some files.now) result
        (Some files.now) }
    ensures no_fault { is_done_fault result ≡ false }
{
    if files.has_named(name) {
        TreeDone::Done
    } else {
        TreeDone::NotFile
    }
}
