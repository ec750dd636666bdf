//! The log beside a database, as far as it tells whose the database is.
//!
//! Its form is that of SQLite (Database File Format, "The Write-Ahead Log").

use crate::file::{bytes_from, has_tables, length_of, log_beside, met, word_at};
use sqlite_tables::fault::DatabaseFault;
use std::alloc::Global;
use std::fs::{self, File};
use std::io::ErrorKind;

/// The length of a log's header.
const HEADER_LEN: u64 = 32;

/// The length of a frame's header. A page stands behind it.
const FRAME_HEADER_LEN: u64 = 24;

/// A log that is shorter has no frame, so that nothing is committed in it.
pub(crate) const LEAST_LEN: u64 = HEADER_LEN + FRAME_HEADER_LEN;

/// A log's first word; its lowest bit tells how the sums are made.
const MAGIC: u32 = 0x377f_0682;

/// The count of checkpoints in a log by which the kit's `sqlite` begins a new database. It
/// goes away with the first checkpoint.
const BEGUN: u32 = 0xffff_ffff;

/// A log.
#[derive(Drop)]
pub(crate) struct Log {
    file: File,
    head: Head,
}

/// What its header tells.
#[derive(Clone, Copy)]
struct Head {
    page_size: u32,
    salt: u64,
    checkpoints: u32,
}

/// Which form of the database's first page stands in a log.
#[derive(Clone, Copy)]
pub(crate) enum FirstPage {
    /// None.
    Missing,
    /// One that lists the tables of records.
    OfRecords,
    /// Only others.
    OfOthers,
}

impl Log {
    /// The log beside the database of a path, where there is one.
    pub(crate) fn beside(rt: &HostRuntime, path: &str) -> Result<Option<Log>, DatabaseFault> {
        let name = log_beside(rt, path)?;
        Log::at(rt, name.as_str())
    }

    /// The log that a file of a name holds, where there is one.
    fn at(rt: &HostRuntime, name: &str) -> Result<Option<Log>, DatabaseFault> {
        match fs::symlink_metadata(rt, name) {
            Ok(found) if found.is_file() => Log::of(rt.alloc(), met(fs::open(rt, name))?),
            Ok(_) => Ok(None),
            Err(error) if error.kind() == ErrorKind::NotFound => Ok(None),
            Err(error) => met(Err(error)),
        }
    }

    /// The log that a file holds, where it holds one.
    fn of(alloc: Global, file: File) -> Result<Option<Log>, DatabaseFault> {
        match head_of(alloc, &file)? {
            Some(head) => Ok(Some(Log { file, head })),
            None => Ok(None),
        }
    }

    /// What the log has of the database's first page.
    pub(crate) fn first_page(&self, alloc: Global) -> Result<FirstPage, DatabaseFault> {
        let mut found = FirstPage::Missing;
        let frame_len = FRAME_HEADER_LEN + u64::from(self.head.page_size);
        let count = length_of(&self.file)? / frame_len;
        for number in 0..count {
            let at = number.saturating_mul(frame_len).saturating_add(HEADER_LEN);
            // What stands behind the last commit was left by earlier ones.
            let Some(page) = self.page_of(alloc, at)? else {
                break;
            };
            if page == 1 {
                if self.page_has_tables(alloc, at.saturating_add(FRAME_HEADER_LEN))? {
                    return Ok(FirstPage::OfRecords);
                }
                found = FirstPage::OfOthers;
            }
        }
        Ok(found)
    }

    /// The number of the page whose form is in the frame at an offset, where one of this log
    /// stands there.
    fn page_of(&self, alloc: Global, at: u64) -> Result<Option<u32>, DatabaseFault> {
        match bytes_from(alloc, &self.file, at, FRAME_HEADER_LEN as usize)? {
            Some(head) => Ok(self.page_in(head.as_slice())),
            None => Ok(None),
        }
    }

    /// The same, of the header of that frame.
    fn page_in(&self, head: &[u8]) -> Option<u32> {
        if salt_at(head, 8) == self.head.salt {
            Some(word_at(head, 0))
        } else {
            None
        }
    }

    /// Whether a first page that stands at an offset lists the tables of records.
    fn page_has_tables(&self, alloc: Global, at: u64) -> Result<bool, DatabaseFault> {
        match bytes_from(alloc, &self.file, at, self.head.page_size as usize)? {
            Some(page) => Ok(has_tables(page.as_slice())),
            None => Ok(false),
        }
    }

    /// Whether it begins a database, of which so many bytes are written.
    pub(crate) fn begins_a_file_of(&self, length: u64) -> bool {
        self.head.checkpoints == BEGUN && length <= u64::from(self.head.page_size)
    }
}

/// What the header of a log tells, where a file has one.
fn head_of(alloc: Global, file: &File) -> Result<Option<Head>, DatabaseFault> {
    match bytes_from(alloc, file, 0, HEADER_LEN as usize)? {
        Some(head) => Ok(read_head(head.as_slice())),
        None => Ok(None),
    }
}

/// What a header tells, where it is one of a log.
fn read_head(head: &[u8]) -> Option<Head> {
    let page_size = word_at(head, 8);
    let is_log = word_at(head, 0) / 2 == MAGIC / 2;
    if !is_log || page_size < 512 || page_size > 65536 {
        return None;
    }
    Some(Head {
        page_size,
        salt: salt_at(head, 16),
        checkpoints: word_at(head, 12),
    })
}

/// The two words at an offset by which a frame belongs to a log.
fn salt_at(bytes: &[u8], at: usize) -> u64 {
    let high = u64::from(word_at(bytes, at));
    let low = u64::from(word_at(bytes, at.saturating_add(4)));
    (high << 32) | low
}
