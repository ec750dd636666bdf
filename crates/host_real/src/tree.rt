//! The files below a root folder, as a tree of files.

ghost use Rattle.std.specs.Prelude.{◌≡◌, IfOk, true};
ghost use Rattle.portal_base.specs.Devices.{count_after};
ghost use Rattle.host_tree.specs.Trees.{is_done_fault};

use crate::below::{Attributes, FilesBelow};
use crate::system::{System, Waiter};
use host_folders::error::{OpenError, TreeError};
use host_tree::{AttrAnswer, HostTree, ListAnswer, LookAnswer, TreeDone, TreeRead};
use portal_base::files::FileName;
use portal_base::memory::WantOfMemory;
use portal_base::names::HostPath;
use std::alloc::Global;
use std::marker::Model;

/// The files of the system below a root folder, which contracts see as a count of
/// faults.
///
/// The file of a path is the regular file that stands at the path below the root. A
/// link below the root, and what is neither a file nor a folder, is answered as nothing
/// there, and no file is made in its place. The generation of a look is a number of the
/// file, and never 0; by it the file is reached whatever stands at its path since. By the
/// generation 0 the file is reached that was made here at the path last, and by another that no
/// look has the one that was made by it. Those that aren't present lie in a folder of the root
/// that is never shown, of which the tree takes all files away when it is opened. A call that the
/// system interrupts is made again; each other error of the system is a fault, but for
/// those that say that no file is there.
#[derive(Drop)]
pub struct RealTree<R: Waiter> {
    below: FilesBelow<R>,
    faults: u64,
}

impl<R: Waiter> Model for RealTree<R> {
    ghost use Rattle.std.specs.Prelude.{ℕ};

    ghost Value = { ℕ };

    ghost view = { λ t. t.faults };
}

impl<R: Waiter> RealTree<R> {
    /// The tree of the files below a folder, without faults so far, which keeps at most so
    /// many of them open. The root may be reached by links; it has to be a folder that can
    /// be read, and `/proc` has to be mounted.
    pub fn open(
        rt: R,
        system: HostRuntime,
        alloc: Global,
        root: &str,
        kept: usize,
    ) -> Result<RealTree<R>, OpenError>
    where
        R: System,
        ensures { IfOk result (λ tree. tree ≡ 0) }
    {
        Ok(RealTree {
            below: FilesBelow::open(rt, system, alloc, root, kept)?,
            faults: 0,
        })
    }

    /// Counts a fault.
    fn fault(&mut self)
        ensures { self.new ≡ count_after self.old true }
    {
        self.faults = self.faults.saturating_add(1);
    }

    /// The answer of a change, whose fault is counted.
    fn done(&mut self, outcome: Result<(), TreeError>) -> TreeDone
        ensures { self.new ≡ count_after self.old (is_done_fault result) }
    {
        match outcome {
            Ok(()) => TreeDone::Done,
            Err(TreeError::NotFile) => TreeDone::NotFile,
            Err(TreeError::Memory) => TreeDone::Memory,
            Err(TreeError::System) => {
                self.fault();
                TreeDone::Failed
            }
        }
    }
}

impl<R: Waiter> HostTree for RealTree<R> {
    ghost use Rattle.std.specs.Prelude.{None};
    ghost use Rattle.host_tree.specs.Trees.{unnoted};

    ghost is = { λ count. record {
      began = None;
      told = None;
      faults = count;
      calls = None;
      noted = unnoted;
    } };

    fn look(&mut self, path: &HostPath) -> LookAnswer {
        match self.below.look(path) {
            Ok(look) => LookAnswer::Is(look),
            Err(_) => {
                self.fault();
                LookAnswer::Failed
            }
        }
    }

    fn attr(&mut self, file: &FileName) -> AttrAnswer {
        match self.below.attributes(file) {
            Ok(Attributes { size, moment }) => AttrAnswer::Is { size, moment },
            Err(TreeError::NotFile) => AttrAnswer::NotFile,
            Err(_) => {
                self.fault();
                AttrAnswer::Failed
            }
        }
    }

    fn list(&mut self, path: &HostPath) -> ListAnswer {
        match self.below.list(path) {
            Ok(Some(names)) => ListAnswer::Names(names),
            Ok(None) => ListAnswer::NotFolder,
            Err(TreeError::Memory) => ListAnswer::Memory,
            Err(_) => {
                self.fault();
                ListAnswer::Failed
            }
        }
    }

    fn read(&mut self, file: &FileName, offset: u64, size: u32) -> TreeRead {
        match self.below.read(file, offset, size) {
            Ok(bytes) => TreeRead::Got(bytes),
            Err(TreeError::NotFile) => TreeRead::NotFile,
            Err(TreeError::Memory) => TreeRead::Memory,
            Err(TreeError::System) => {
                self.fault();
                TreeRead::Failed
            }
        }
    }

    fn write(&mut self, file: &FileName, offset: u64, content: &[u8], now: u64) -> TreeDone {
        let outcome = self.below.write(file, offset, content, now);
        self.done(outcome)
    }

    fn set_len(&mut self, file: &FileName, size: u64, now: u64) -> TreeDone {
        let outcome = self.below.set_len(file, size, now);
        self.done(outcome)
    }

    fn create(&mut self, path: &HostPath, now: u64) -> TreeDone {
        let outcome = self.below.create(path, now);
        self.done(outcome)
    }

    fn fresh(&mut self, file: &FileName, now: u64) -> TreeDone {
        let outcome = self.below.fresh(file, now);
        self.done(outcome)
    }

    fn turn(&mut self, file: &FileName) -> TreeDone {
        let outcome = self.below.turn(file);
        self.done(outcome)
    }

    fn sync(&mut self, file: &FileName) -> TreeDone {
        let outcome = self.below.sync(file);
        self.done(outcome)
    }

    fn settle(&mut self) -> Result<(), WantOfMemory> {
        Ok(())
    }

    fn known(&self) {}
}
