//! How a request on a node changes the files of the tree, where it is done.

ghost use Rattle.std.specs.Prelude.{◌≡◌, true, OnOk};
ghost use Rattle.portal_model.specs.Node.{files_after};
ghost use Rattle.trace_items.specs.Awaited.{change_of};
ghost use Rattle.trace_items.specs.FilesChanged.{CanCome};

use portal_base::files::FileName;
use portal_base::memory::WantOfMemory;
use portal_base::names::HostPath;
use std::alloc::Global;
use tree_files::TreeFiles;

/// How the files change, at a moment in seconds.
#[derive(Drop)]
pub enum FileUpdate<'a> {
    /// They stay.
    Stay,
    /// Bytes are written over those of a file.
    Write {
        /// The file.
        name: FileName,
        /// The place of the first byte.
        offset: u64,
        /// The bytes.
        content: &'a [u8],
        /// The moment.
        now: u64,
    },
    /// A file gets a length.
    Resize {
        /// The file.
        name: FileName,
        /// The length, in bytes.
        size: u64,
        /// The moment.
        now: u64,
    },
    /// An empty file is made.
    Create {
        /// Its path.
        path: HostPath,
        /// The moment.
        now: u64,
    },
    /// An empty file is made that isn't present.
    Freshen {
        /// The file.
        name: FileName,
        /// The moment.
        now: u64,
    },
    /// A file becomes the present one of its path.
    Turn {
        /// The file.
        name: FileName,
    },
}

/// Changes the files so. A file is made only where its path has none.
pub fn change(alloc: Global, files: &mut TreeFiles, update: &FileUpdate) -> Result<(), WantOfMemory>
    requires { CanCome (change_of update.now) files.old }
    ensures { OnOk result (files.new ≡ files_after true (change_of update.now) files.old) }
{
    match update {
        FileUpdate::Stay => Ok(()),
        FileUpdate::Write {
            name,
            offset,
            content,
            now,
        } => files.write(name, *offset, content, *now),
        FileUpdate::Resize { name, size, now } => files.set_len(name, *size, *now),
        FileUpdate::Create { path, now } => files.create(alloc, path, *now),
        FileUpdate::Freshen { name, now } => files.freshen(alloc, name, *now),
        FileUpdate::Turn { name } => files.turn(alloc, name),
    }
}
