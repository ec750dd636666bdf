//! Whether the system gives as many threads as a service has.

use std::alloc::{AllocError, AllocFailed, Global};
use std::io::{PipeReader, Read};
use std::sync::Arc;
use std::thread::{JoinHandle, Threads};
use std::{io, thread};

/// The threads that the tree has beside the posts: those that open its files, and one that
/// closes what rests.
pub const TREE_THREADS: usize = 9;

/// Why it isn't known whether there are threads enough.
#[derive(Debug, Drop)]
pub enum TrialError {
    /// There was no memory.
    Memory,
    /// The system gave no pipe, on which the threads wait for each other.
    System(io::Error),
}

impl From<AllocError> for TrialError {
    fn from(_error: AllocError) -> TrialError {
        TrialError::Memory
    }
}

impl<T: Drop> From<AllocFailed<T>> for TrialError {
    fn from(_error: AllocFailed<T>) -> TrialError {
        TrialError::Memory
    }
}

/// Whether the system gives so many threads at once. Each is started, and ends once the
/// last one stands.
///
/// What another process takes in the meantime may be wanting later all the same.
pub fn gives_threads<R: Threads>(
    rt: &R,
    system: &HostRuntime,
    count: usize,
) -> Result<bool, TrialError> {
    let (reader, writer) = match io::pipe(system) {
        Ok(ends) => ends,
        Err(error) => return Err(TrialError::System(error)),
    };
    let end = Arc::new(system.alloc(), reader)?;
    let threads = start(rt, system.alloc(), count, &end);
    // Each thread waits until nobody can write any more.
    drop(writer);
    let threads = threads?;
    let given = threads.len() == count;
    for thread in threads {
        thread.join(rt);
    }
    Ok(given)
}

/// So many threads, which wait for the end of a pipe, or those that the system gives.
fn start<R: Threads>(
    rt: &R,
    alloc: Global,
    count: usize,
    end: &Arc<PipeReader>,
) -> Result<Vec<JoinHandle<()>>, AllocError> {
    let mut threads = Vec::new(alloc);
    for _ in 0..count {
        let theirs = Arc::try_clone(end)?;
        match thread::spawn(rt, move || wait_for(&theirs)) {
            Ok(thread) => threads.push(thread)?,
            Err(_) => break,
        }
    }
    Ok(threads)
}

/// Waits for the end of a pipe.
fn wait_for(end: &PipeReader) {
    let mut end = end;
    let _ = end.read(&mut [0; 1]);
}
