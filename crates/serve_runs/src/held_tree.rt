//! A tree in which a call is held.

use crate::hold::Steps;
use host_tree::{AttrAnswer, HostTree, ListAnswer, LookAnswer, TreeDone, TreeRead};
use portal_base::files::FileName;
use portal_base::memory::WantOfMemory;
use portal_base::names::HostPath;
use std::time::Clock;

/// How far a thread has come whose call of the tree is held, and the one beside it.
#[derive(Drop)]
pub struct Meeting {
    /// The call has begun.
    pub come: Steps,
    /// It may go on.
    pub go: Steps,
    /// It was answered.
    pub done: Steps,
}

impl Meeting {
    /// No call has begun.
    pub fn new() -> Meeting {
        Meeting {
            come: Steps::new(),
            go: Steps::new(),
            done: Steps::new(),
        }
    }
}

/// A tree whose first look may be held.
#[derive(Drop)]
pub struct HeldTree<'a, R: Clock, T: HostTree> {
    /// What sleeps.
    pub rt: &'a R,
    /// Where it is held.
    pub meeting: &'a Meeting,
    /// Whether the next look is held.
    pub held: bool,
    /// The tree.
    pub tree: T,
}

impl<'a, R: Clock, T: HostTree> HostTree for HeldTree<'a, R, T> {
    ghost is = { λ t. T.is t.tree };

    fn look(&mut self, path: &HostPath) -> LookAnswer {
        if self.held {
            self.held = false;
            self.meeting.come.step();
            self.meeting.go.wait(self.rt);
        }
        self.tree.look(path)
    }

    fn attr(&mut self, file: &FileName) -> AttrAnswer {
        self.tree.attr(file)
    }

    fn list(&mut self, path: &HostPath) -> ListAnswer {
        self.tree.list(path)
    }

    fn read(&mut self, file: &FileName, offset: u64, size: u32) -> TreeRead {
        self.tree.read(file, offset, size)
    }

    fn write(&mut self, file: &FileName, offset: u64, content: &[u8], now: u64) -> TreeDone {
        self.tree.write(file, offset, content, now)
    }

    fn set_len(&mut self, file: &FileName, size: u64, now: u64) -> TreeDone {
        self.tree.set_len(file, size, now)
    }

    fn create(&mut self, path: &HostPath, now: u64) -> TreeDone {
        self.tree.create(path, now)
    }

    fn fresh(&mut self, file: &FileName, now: u64) -> TreeDone {
        self.tree.fresh(file, now)
    }

    fn turn(&mut self, file: &FileName) -> TreeDone {
        self.tree.turn(file)
    }

    fn sync(&mut self, file: &FileName) -> TreeDone {
        self.tree.sync(file)
    }

    fn settle(&mut self) -> Result<(), WantOfMemory> {
        self.tree.settle()
    }

    fn known(&self) {
        self.tree.known();
    }
}
