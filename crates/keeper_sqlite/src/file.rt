//! Whose file a path leads to, seen before SQLite opens it.
//!
//! SQLite makes a log beside a file that it opens, and takes a file of one byte for one that
//! it may write over. So a file that holds no records is found out first, and only read.

use crate::loading::ready_tables;
use crate::log::{FirstPage, LEAST_LEN, Log};
use memchr::memmem;
use os::RangeLock;
use sqlite::{Connection, Error, ErrorCode, File as DatabaseFile, FileStore, Options, Unknown};
use sqlite_std_file::OpenError;
use sqlite_tables::earlier::EARLIER_TABLES;
use sqlite_tables::fault::DatabaseFault;
use sqlite_tables::tables::TABLES;
use std::alloc::Global;
use std::fs::{self, File, Metadata, OpenOptions};
use std::hash::{BuildHasher, RandomState};
use std::io::{self, ErrorKind};
use std::os::fd::AsRawFd;
use std::os::unix::fs::{FileExt, MetadataExt, OpenOptionsExt};
use std::path::PathBuf;

/// Only the owner may read and write a database that is made; its log has its mode.
const OWNERS_MODE: u32 = 0o600;

/// What a SQLite database begins with (Database File Format, "The Database Header").
const MAGIC: &[u8] = b"SQLite format 3\0";

/// Where its header tells how long a page is, in two bytes, and the end of the word there.
const PAGE_SIZE: usize = 16;

const PAGE_SIZE_END: usize = 20;

/// How many pages of the database are kept in memory, which is taken at the start: a megabyte. A
/// start reads each page once, and a change some few, which the system has in memory too.
const CACHED_PAGES: usize = 256;

/// The bytes that a process locks that has a database open (Database File Format, "The
/// Lock-Byte Page").
const LOCK_BYTES: (u64, u64) = (1 << 30, 512);

/// Opens the database of a path, with its tables. Where nothing stands there its file is made.
pub(crate) fn open_database(
    rt: &HostRuntime,
    path: &str,
) -> Result<Connection<FileStore<DatabaseFile>>, DatabaseFault> {
    let alone = ready_file(rt, path)?;
    let opened = connect(rt, path);
    if opened.is_err() {
        forget_log(rt, &alone);
    }
    opened
}

/// Removes the log that SQLite began beside a file that stood alone.
fn forget_log(rt: &HostRuntime, alone: &Option<PathBuf>) {
    if let Some(real) = alone {
        // What the database is refused for is told, whatever comes of its log.
        let _ = remove_bare_log(rt, real.as_str());
    }
}

/// Lets SQLite open the database of a path, and makes its tables where there are none.
fn connect(
    rt: &HostRuntime,
    path: &str,
) -> Result<Connection<FileStore<DatabaseFile>>, DatabaseFault> {
    // A commit is synced once, as SQLite's WAL with synchronous FULL does, on the premise that a
    // torn write leaves each byte old or new. To take no such premise would sync twice.
    let mut conn = connected(rt, path)?;
    ready_tables(&mut conn)?;
    Ok(conn)
}

/// The same, with fewer pages kept in memory than SQLite keeps where nothing is said.
fn connected(
    rt: &HostRuntime,
    path: &str,
) -> Result<Connection<FileStore<DatabaseFile>>, DatabaseFault> {
    let options = options(rt)?;
    let files = match sqlite_std_file::open(rt, path, Unknown) {
        Ok(files) => files,
        Err(error) => return Err(unopened(&error)),
    };
    match Connection::open_files(rt.alloc(), files, options) {
        Ok(mut conn) => {
            conn.set_clock(rt);
            Ok(conn)
        }
        Err((error, _)) => Err(DatabaseFault::from(error)),
    }
}

/// What SQLite is told of how it works.
fn options(rt: &HostRuntime) -> Result<Options, DatabaseFault> {
    let seed = met(RandomState::new(rt))?.hash_one(&0u8);
    Ok(Options {
        cache_pages: CACHED_PAGES,
        ..Options::new(seed)
    })
}

/// What is met where SQLite's files aren't opened.
fn unopened(error: &OpenError) -> DatabaseFault {
    match error {
        OpenError::OutOfMemory => DatabaseFault::Memory,
        OpenError::Busy => DatabaseFault::Sqlite(Error::SqliteFailure(ErrorCode::DatabaseBusy)),
        OpenError::Io(error) if error.kind() == ErrorKind::OutOfMemory => DatabaseFault::Memory,
        _ => DatabaseFault::Sqlite(Error::SqliteFailure(ErrorCode::CannotOpen)),
    }
}

/// Makes sure that a path leads to a file of records, or to an empty one: to which, where it has
/// records and no log beside it.
fn ready_file(rt: &HostRuntime, path: &str) -> Result<Option<PathBuf>, DatabaseFault> {
    match fs::canonicalize(rt, path) {
        Ok(real) => {
            let stands = stands_alone(rt, real.as_str());
            if stands? { Ok(Some(real)) } else { Ok(None) }
        }
        Err(error) if error.kind() == ErrorKind::NotFound => {
            make_file(rt, path)?;
            Ok(None)
        }
        Err(error) => Err(unusable(&error)),
    }
}

/// Makes sure that a file has records, or is empty: whether it has some, and no log beside it.
fn stands_alone(rt: &HostRuntime, real: &str) -> Result<bool, DatabaseFault> {
    // What SQLite begins of a new file it finds again by the log, which stays then.
    if !see_file(rt, real)? {
        return Ok(false);
    }
    let log = log_beside(rt, real)?;
    let is_there = met(fs::exists(rt, log.as_str()))?;
    Ok(!is_there)
}

/// Where the log of a database stands.
pub(crate) fn log_beside(rt: &HostRuntime, path: &str) -> Result<String, DatabaseFault> {
    Ok(format!(in rt.alloc(); "{path}-wal")?)
}

/// Removes the log that SQLite began beside a file that it then refused.
fn remove_bare_log(rt: &HostRuntime, path: &str) -> Result<(), DatabaseFault> {
    // Nobody else opens the database in the meantime, since the file is locked until it is let go.
    let file = met(fs::open(rt, path))?;
    if is_in_use(&file) {
        Ok(())
    } else {
        remove_if_bare(rt, path)
    }
}

/// Removes the log of a file that nobody has open, where nothing is committed in it.
fn remove_if_bare(rt: &HostRuntime, path: &str) -> Result<(), DatabaseFault> {
    let log = log_beside(rt, path)?;
    match fs::symlink_metadata(rt, log.as_str()) {
        Ok(found) if found.is_file() && found.len() < LEAST_LEN => {
            met(fs::remove_file(rt, log.as_str()))
        }
        _ => Ok(()),
    }
}

/// What is met where the system refuses a call on the file.
pub(crate) fn unusable(error: &io::Error) -> DatabaseFault {
    match error.kind() {
        ErrorKind::OutOfMemory => DatabaseFault::Memory,
        kind => DatabaseFault::File(kind),
    }
}

/// Makes an empty file.
fn make_file(rt: &HostRuntime, path: &str) -> Result<(), DatabaseFault> {
    let made = OpenOptions::new()
        .write(true)
        .create_new(true)
        .mode(OWNERS_MODE)
        .open(rt, path);
    match made {
        Ok(_) => Ok(()),
        // A link that leads nowhere.
        Err(error) if error.kind() == ErrorKind::AlreadyExists => Err(DatabaseFault::NoFile),
        Err(error) => Err(unusable(&error)),
    }
}

/// Sees that a file has one name, isn't in use, and is empty or a file of records: whether it has
/// any.
fn see_file(rt: &HostRuntime, path: &str) -> Result<bool, DatabaseFault> {
    let found = met(fs::symlink_metadata(rt, path))?;
    if !found.is_file() {
        return Err(DatabaseFault::NoFile);
    }
    if found.nlink() != 1 {
        return Err(DatabaseFault::Linked);
    }
    let file = met(fs::open(rt, path))?;
    see_content(rt, path, &file)
}

/// Sees that a file isn't in use, and is empty or one of records: whether it has any.
fn see_content(rt: &HostRuntime, path: &str, file: &File) -> Result<bool, DatabaseFault> {
    if is_in_use(file) {
        return Err(DatabaseFault::Sqlite(Error::SqliteFailure(ErrorCode::DatabaseBusy)));
    }
    if length_of(file)? == 0 {
        Ok(false)
    } else if is_of_records(rt, path, file)? {
        Ok(true)
    } else {
        Err(DatabaseFault::Foreign)
    }
}

/// The answer of the system, or what is met.
pub(crate) fn met<T>(answer: io::Result<T>) -> Result<T, DatabaseFault> {
    match answer {
        Ok(value) => Ok(value),
        Err(error) => Err(unusable(&error)),
    }
}

/// The length of a file.
pub(crate) fn length_of(file: &File) -> Result<u64, DatabaseFault> {
    let found: Metadata = met(file.metadata())?;
    Ok(found.len())
}

/// Whether another process has the database open.
fn is_in_use(file: &File) -> bool {
    let (start, length) = LOCK_BYTES;
    if os::try_lock_range(file.as_raw_fd(), RangeLock::Shared, start, length) == 0 {
        return false;
    }
    io::Error::from_raw_os_error(os::errno()).kind() == ErrorKind::WouldBlock
}

/// Whether a file that isn't empty has the tables of records, or was left by one who was
/// about to make them.
fn is_of_records(rt: &HostRuntime, path: &str, file: &File) -> Result<bool, DatabaseFault> {
    if lists_tables(rt.alloc(), file)? {
        return Ok(true);
    }
    // What was committed last may stand in the log alone.
    match Log::beside(rt, path)? {
        Some(log) => is_log_of_records(rt.alloc(), &log, file),
        None => Ok(false),
    }
}

/// Whether the first page of a database lists the tables of records.
fn lists_tables(alloc: Global, file: &File) -> Result<bool, DatabaseFault> {
    match first_page(alloc, file)? {
        Some(page) => Ok(has_tables(page.as_slice())),
        None => Ok(false),
    }
}

/// Whether the log beside a file has the tables of records, or begins a database there.
fn is_log_of_records(alloc: Global, log: &Log, file: &File) -> Result<bool, DatabaseFault> {
    match log.first_page(alloc)? {
        FirstPage::OfRecords => Ok(true),
        FirstPage::OfOthers => Ok(false),
        FirstPage::Missing => Ok(log.begins_a_file_of(length_of(file)?)),
    }
}

/// The first page of a database, which lists its tables.
fn first_page(alloc: Global, file: &File) -> Result<Option<Vec<u8>>, DatabaseFault> {
    match page_size(alloc, file)? {
        Some(size) => bytes_from(alloc, file, 0, size),
        None => Ok(None),
    }
}

/// How long a page of a file is, where it is a database.
fn page_size(alloc: Global, file: &File) -> Result<Option<usize>, DatabaseFault> {
    match bytes_from(alloc, file, 0, PAGE_SIZE_END)? {
        Some(header) => Ok(page_size_in(header.as_slice())),
        None => Ok(None),
    }
}

/// How long a page is, where this is how a database begins.
fn page_size_in(header: &[u8]) -> Option<usize> {
    if !header.starts_with(MAGIC) {
        return None;
    }
    match word_at(header, PAGE_SIZE) / 65536 {
        1 => Some(65536),
        size => Some(size as usize),
    }
}

/// The word at an offset, its highest byte first; 0 where there is none.
pub(crate) fn word_at(bytes: &[u8], at: usize) -> u32 {
    match bytes.get(at..) {
        Some([a, b, c, d, ..]) => u32::from_be_bytes([*a, *b, *c, *d]),
        _ => 0,
    }
}

/// So many bytes of a file from an offset on, or none where it ends before them.
pub(crate) fn bytes_from(
    alloc: Global,
    file: &File,
    offset: u64,
    count: usize,
) -> Result<Option<Vec<u8>>, DatabaseFault> {
    let mut bytes = Vec::new(alloc);
    bytes.resize(count, 0)?;
    match file.read_exact_at(bytes.as_mut_slice(), offset) {
        Ok(()) => Ok(Some(bytes)),
        Err(error) if error.kind() == ErrorKind::UnexpectedEof => Ok(None),
        Err(error) => Err(unusable(&error)),
    }
}

/// Whether a first page lists the tables of records, of either version.
pub(crate) fn has_tables(page: &[u8]) -> bool {
    has_each(page, &TABLES) || has_each(page, &EARLIER_TABLES)
}

/// Whether each of the texts stands in a page.
fn has_each(page: &[u8], texts: &[&str]) -> bool {
    texts
        .iter()
        .all(|text| memmem::find(page, text.as_bytes()).is_some())
}
