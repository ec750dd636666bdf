//! What is kept of a file, beside its path.

ghost use Rattle.std.specs.Prelude.{◌≡◌, OnErr, OnOk, Some, option_copied};
ghost use Rattle.portal_base.specs.FileChanges.{overlaid};
ghost use Rattle.tree_files.specs.Kept.{kept_as, kept_resized, kept_written, of_generation};

use portal_base::list::ByteList;
use portal_base::memory::{Replica, WantOfMemory};
use portal_base::names::HostPath;
use std::alloc::Global;

/// What is kept of a file.
#[derive(Drop)]
pub struct KeptFile {
    /// Which of the files that its path has had.
    pub generation: u64,
    /// Its bytes.
    pub bytes: ByteList,
    /// When it changed last, in seconds.
    pub moment: u64,
}

/// A file that isn't present.
#[derive(Drop)]
pub struct HiddenFile {
    /// The path at which it was made to stand, or stood.
    pub path: HostPath,
    /// The file.
    pub kept: KeptFile,
}

impl Replica for KeptFile {
    fn replica(&self, alloc: Global) -> Result<KeptFile, WantOfMemory> {
        Ok(KeptFile {
            generation: self.generation,
            bytes: self.bytes.replica(alloc)?,
            moment: self.moment,
        })
    }
}

impl KeptFile {
    /// It, where it is of this generation.
    pub(crate) fn of_generation(&self, generation: u64) -> Option<&KeptFile>
        ensures { option_copied result ≡ of_generation generation (Some self.now) }
    {
        if self.generation == generation {
            Some(self)
        } else {
            None
        }
    }

    /// Writes over the bytes from an offset on, where it is of this generation, or
    /// changes nothing.
    pub(crate) fn write_as(
        &mut self,
        generation: u64,
        offset: u64,
        content: &[u8],
        now: u64,
    ) -> Result<(), WantOfMemory>
        ensures ok { OnOk result (self.new
            ≡ kept_as generation (kept_written offset content.now now) self.old) }
        ensures err { OnErr result (self.new ≡ self.old) }
    {
        if self.generation != generation {
            return Ok(());
        }
        self.write(offset, content, now)
    }

    /// Cuts or fills the bytes to a length, where it is of this generation, or changes
    /// nothing.
    pub(crate) fn set_len_as(
        &mut self,
        generation: u64,
        size: u64,
        now: u64,
    ) -> Result<(), WantOfMemory>
        ensures ok { OnOk result (self.new
            ≡ kept_as generation (kept_resized size now) self.old) }
        ensures err { OnErr result (self.new ≡ self.old) }
    {
        if self.generation != generation {
            return Ok(());
        }
        self.set_len(size, now)
    }

    /// Writes over the bytes from an offset on, or changes nothing.
    pub(crate) fn write(
        &mut self,
        offset: u64,
        content: &[u8],
        now: u64,
    ) -> Result<(), WantOfMemory>
        ensures ok { OnOk result (self.new ≡ kept_written offset content.now now self.old) }
        ensures err { OnErr result (self.new ≡ self.old) }
    {
        // As POSIX says of `write`: without bytes the moment stays too.
        if content.is_empty() {
            return Ok(());
        }
        overlay(&mut self.bytes, offset, content)?;
        self.moment = now;
        Ok(())
    }

    /// Cuts or fills the bytes to a length, or changes nothing.
    pub(crate) fn set_len(&mut self, size: u64, now: u64) -> Result<(), WantOfMemory>
        ensures ok { OnOk result (self.new ≡ kept_resized size now self.old) }
        ensures err { OnErr result (self.new ≡ self.old) }
    {
        self.bytes.resize(size as usize, 0)?;
        self.moment = now;
        Ok(())
    }
}

/// Writes over bytes from an offset on; what is missing ahead of it is zero.
fn overlay(bytes: &mut ByteList, offset: u64, content: &[u8]) -> Result<(), WantOfMemory>
    ensures ok { OnOk result (bytes.new ≡ overlaid bytes.old offset content.now) }
    ensures err { OnErr result (bytes.new ≡ bytes.old) }
{
    let start = offset as usize;
    let Some(end) = start.checked_add(content.len()) else {
        return Err(WantOfMemory);
    };
    if end > bytes.len() {
        bytes.resize(end, 0)?;
    }
    bytes.overwrite(start, content);
    Ok(())
}
