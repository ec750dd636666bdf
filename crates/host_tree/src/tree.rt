//! A tree of files, as the portal sees it.
//!
//! An implementation may tell contracts what it has: one in memory does, a
//! real one doesn't. Its count of faults rises at each `Failed` and at nothing
//! else; it stops at the greatest `u64`. One that tells its calls has the
//! number of those that came and the numbers of those that are to fail,
//! counted from 1; each call but `known` and `settle` is one. The kinds of the
//! first calls are noted, as many as the tree has room for, which may be none.
//!
//! A path has a present file, or none. It is what a look shows, and what `create`
//! makes; the other calls reach a file by its name, be it present or not. A tree
//! has folders at `/` and at every path above a present file.

ghost use Rattle.std.specs.Prelude.{◌≡◌, IfSome, IsOk, None, OnErr, OnOk};
ghost use Rattle.portal_base.specs.Content.{IsTree};

use portal_base::files::{ChildName, FileName, Look};
use portal_base::list::{ByteList, List};
use portal_base::memory::WantOfMemory;
use portal_base::names::HostPath;

/// The answer of a look.
#[derive(Clone, Copy, Debug, PartialEq, Eq)]
pub enum LookAnswer {
    /// What stands at the path.
    Is(Look),
    /// A fault of the tree.
    Failed,
}

/// The answer of a call for a file's attributes.
#[derive(Clone, Copy, Debug, PartialEq, Eq)]
pub enum AttrAnswer {
    /// The file is there.
    Is {
        /// Its length in bytes.
        size: u64,
        /// When it changed last, in seconds.
        moment: u64,
    },
    /// The tree has no such file.
    NotFile,
    /// A fault of the tree.
    Failed,
}

/// The answer of a call for the names in a folder.
#[derive(Drop)]
pub enum ListAnswer {
    /// The names of the files and folders in it, in byte order, each once.
    Names(List<ChildName>),
    /// The tree has no folder there.
    NotFolder,
    /// A fault of the tree.
    Failed,
    /// There was no memory for the names.
    Memory,
}

/// The answer of a read.
#[derive(Debug, Drop)]
pub enum TreeRead {
    /// The bytes from the offset on, fewer than were asked or none at the end.
    Got(ByteList),
    /// The tree has no such file.
    NotFile,
    /// A fault of the tree.
    Failed,
    /// There was no memory for the bytes.
    Memory,
}

/// The answer of a call that changes a file or brings it to rest.
#[derive(Clone, Copy, Debug, PartialEq, Eq)]
pub enum TreeDone {
    /// It is done.
    Done,
    /// The tree has no such file; of `create` and `fresh`: something is there,
    /// or the parent is no folder; of `turn` also: the path is a folder.
    NotFile,
    /// A fault of the tree, in which nothing changed.
    Failed,
    /// There was no memory; nothing changed.
    Memory,
}

/// A call of a tree, by the method that makes it.
#[derive(Clone, Copy, Debug, PartialEq, Eq)]
pub enum TreeCall {
    /// [`HostTree::look`].
    Look,
    /// [`HostTree::attr`].
    Attr,
    /// [`HostTree::list`].
    List,
    /// [`HostTree::read`].
    Read,
    /// [`HostTree::write`].
    Write,
    /// [`HostTree::set_len`].
    SetLen,
    /// [`HostTree::create`].
    Create,
    /// [`HostTree::fresh`].
    Fresh,
    /// [`HostTree::turn`].
    Turn,
    /// [`HostTree::sync`].
    Sync,
}

/// A tree of files.
pub trait HostTree {
    ghost use Rattle.host_tree.specs.Trees.{TreeIs, Asks, AreNoted, Changes, Looks, Attrs, Lists, Gets, is_look_fault, is_attr_fault, is_list_fault, is_read_fault, is_held, change_held, written, resized, may_create, may_fresh, may_turn, put_present, new_file, freshened, turned, as_before, settled};

    /// What the tree means.
    ghost is: { Self → TreeIs };

    /// What stands at a path; it takes no memory.
    fn look(&mut self, path: &HostPath) -> LookAnswer
        ensures asks { Asks TreeCall.Look (is self.old) (is_look_fault result) (is self.new) }
        ensures looks { Looks (is self.old).told path.now result };

    /// The length and the moment of a file; it takes no memory.
    fn attr(&mut self, file: &FileName) -> AttrAnswer
        ensures asks { Asks TreeCall.Attr (is self.old) (is_attr_fault result) (is self.new) }
        ensures attrs { Attrs (is self.old).told file.now result };

    /// The names in a folder. What is neither a file nor a folder has none.
    fn list(&mut self, path: &HostPath) -> ListAnswer
        ensures asks { Asks TreeCall.List (is self.old) (is_list_fault result) (is self.new) }
        ensures lists { Lists (is self.old).told path.now result };

    /// The bytes of a file from an offset on, at most `size`.
    fn read(&mut self, file: &FileName, offset: u64, size: u32) -> TreeRead
        ensures asks { Asks TreeCall.Read (is self.old) (is_read_fault result) (is self.new) }
        ensures gets { Gets (is self.old).told file.now offset size result };

    /// Writes over a file's bytes from an offset on, and sets its moment.
    ///
    /// A gap behind the former end is filled with zero bytes. A write of no
    /// bytes changes nothing.
    fn write(&mut self, file: &FileName, offset: u64, content: &[u8], now: u64) -> TreeDone
        ensures { Changes TreeCall.Write (λ held. is_held held file.now)
            (change_held file.now (written offset content.now now)) (is self.old) result
            (is self.new) };

    /// Cuts a file to a length, or fills it with zero bytes up to it, and sets
    /// its moment.
    fn set_len(&mut self, file: &FileName, size: u64, now: u64) -> TreeDone
        ensures { Changes TreeCall.SetLen (λ held. is_held held file.now)
            (change_held file.now (resized size now)) (is self.old) result (is self.new) };

    /// Makes an empty file, of generation 0, where nothing stands and the parent
    /// is a folder. It is its path's present file.
    fn create(&mut self, path: &HostPath, now: u64) -> TreeDone
        ensures { Changes TreeCall.Create (λ held. may_create held.present path.now)
            (put_present (new_file path.now now)) (is self.old) result (is self.new) };

    /// Makes an empty file of a name, where the parent is a folder and no file has
    /// it. It isn't present. The first of a path, of generation 0, `create` makes.
    fn fresh(&mut self, file: &FileName, now: u64) -> TreeDone
        ensures { Changes TreeCall.Fresh (may_fresh file.now) (freshened file.now now)
            (is self.old) result (is self.new) };

    /// Makes a file its path's present one, in the place of another. That one
    /// stays, and is reached by its name. What is present already stays.
    fn turn(&mut self, file: &FileName) -> TreeDone
        ensures { Changes TreeCall.Turn (λ held. may_turn held file.now) (turned file.now)
            (is self.old) result (is self.new) };

    /// Brings a file's bytes to rest.
    fn sync(&mut self, file: &FileName) -> TreeDone
        ensures { Changes TreeCall.Sync (λ held. is_held held file.now) as_before (is self.old)
            result (is self.new) };

    /// Takes the files as they are for those that the tree began with; it is no
    /// call of the tree. One that doesn't tell its files answers `Ok`.
    fn settle(&mut self) -> Result<(), WantOfMemory>
        ensures ok { OnOk result (is self.new ≡ settled (is self.old)) }
        ensures err { OnErr result (self.new ≡ self.old) }
        ensures untold { (is self.old).told ≡ None → IsOk result };

    // No law of a trait can say this of every value, so it is a method, which costs no call.
    /// What is true at each moment: the present files that are told are those of
    /// a tree, and as many kinds are noted as calls were made, up to the room. It
    /// is no call of the tree.
    fn known(&self)
        ensures told { IfSome (is self.now).told (λ held. IsTree held.present) }
        ensures began { IfSome (is self.now).began (λ held. IsTree held.present) }
        ensures noted { IfSome (is self.now).calls (AreNoted (is self.now).noted) };
}
