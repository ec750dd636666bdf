//! The lines of a script, as plain data.

use portal_base::list::{ByteList, List};
use portal_base::names::doc_id::DocId;
use portal_base::names::host_path::HostPath;
use portal_base::who::{Kind, Who};
use portal_model::records::{EntryRecord, GrantRecord};

// It is named, so that one form of line serves the tree and the keeper.
/// A device of which a call may fail.
#[derive(Clone, Copy, Debug, PartialEq, Eq)]
pub enum Device {
    /// The tree of files.
    Tree,
    /// The keeper of records.
    Keeper,
}

/// One line of a script.
#[derive(Debug, Drop)]
pub enum ScriptLine {
    /// `file PATH HEX`: a file of the tree.
    File {
        /// Its path.
        path: HostPath,
        /// Its bytes.
        content: ByteList,
    },
    /// `doc ID FLAGS PATH GRANTS`: a kept document.
    Doc {
        /// Its number.
        id: DocId,
        /// Whether a later addition of the same path may use it.
        reusable: bool,
        /// Whether open handles of its file follow later revocations.
        strict: bool,
        /// Its path.
        path: HostPath,
        /// The rights in it, in byte order of the applications' names.
        grants: List<GrantRecord>,
    },
    /// `entry TABLE ID HEX ROWS`: a kept entry of the permission store.
    Entry(EntryRecord),
    /// `fail tree K`, `fail keeper K`: a call that fails.
    Fail {
        /// The device.
        device: Device,
        /// The number of the call, from 1: of all calls of the tree, or of
        /// those of the keeper that change records.
        call: u64,
    },
    /// `word HEX`: the next of the words that new documents draw their numbers
    /// from.
    Word {
        /// The word.
        word: u32,
    },
    /// `now N`: the clock is set.
    Now {
        /// The time that it shows from then on, in seconds.
        moment: u64,
    },
    /// `open N KIND WHO`: a connection is opened, with its seat.
    Open {
        /// The number of the connection and of its seat, from 1 to 65,535.
        seat: u32,
        /// What the connection speaks.
        kind: Kind,
        /// Whom it is bound to.
        who: Who,
    },
    /// `data N HEX`: bytes that come on an open connection.
    Data {
        /// The number of the connection.
        seat: u32,
        /// The bytes.
        bytes: ByteList,
    },
    /// `close N`: the end of a connection's input.
    Close {
        /// The number of the connection.
        seat: u32,
    },
}

/// A script.
#[derive(Debug, Drop)]
pub struct Script {
    /// Its lines.
    pub lines: List<ScriptLine>,
}
