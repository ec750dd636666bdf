//! How a service ended.

ghost use Rattle.std.specs.Prelude.{◌≡◌};
ghost use Rattle.serve_start.specs.Ends.{number_of};

use portal_base::memory::WantOfMemory;
use portal_base::text::Text;
use std::fmt;

/// How a service ended, or why none began.
#[derive(Drop)]
pub enum ServeEnd {
    /// Every socket was closed.
    Closed,
    /// The words are faulty.
    Usage {
        /// What is faulty.
        why: String,
    },
    /// The folder of the files can't be used.
    NoRoot {
        /// Why not.
        why: String,
    },
    /// A socket can't be made.
    NoSocket {
        /// Where.
        path: Text,
        /// Why not.
        why: String,
    },
    /// Fewer files may be open than the service has open at once.
    FewFiles {
        /// How many it has open.
        wanted: u64,
        /// How many may be.
        allowed: u64,
    },
    /// The system gives fewer threads than the service has.
    FewThreads {
        /// How many it has.
        wanted: u64,
    },
    /// It can't be tried how many threads the system gives.
    NoTrial {
        /// What the system says.
        why: String,
    },
    /// There are no random bytes for the guid and the identifiers.
    NoSeed {
        /// What the system says.
        why: String,
    },
    /// The store failed.
    KeeperFault {
        /// What it met.
        why: String,
    },
    /// What the store keeps breaks a rule.
    BadRecord {
        /// The number of the first bad record, from 0.
        index: u64,
    },
    /// There was no memory.
    Memory,
    /// The store is of a version that isn't known.
    BadVersion {
        /// The version.
        found: u32,
    },
    /// A socket failed.
    SocketFault,
}

impl ServeEnd {
    /// The number that the program ends with.
    pub fn number(&self) -> u8
        ensures { result ≡ number_of self.now }
    {
        match self {
            ServeEnd::Closed => 0,
            ServeEnd::Usage { .. } => 1,
            ServeEnd::NoRoot { .. } => 1,
            ServeEnd::NoSocket { .. } => 2,
            ServeEnd::FewFiles { .. } => 2,
            ServeEnd::FewThreads { .. } => 2,
            ServeEnd::NoTrial { .. } => 2,
            ServeEnd::NoSeed { .. } => 2,
            ServeEnd::KeeperFault { .. } => 3,
            ServeEnd::BadRecord { .. } => 4,
            ServeEnd::Memory => 5,
            ServeEnd::BadVersion { .. } => 6,
            ServeEnd::SocketFault => 7,
        }
    }
}

impl From<WantOfMemory> for ServeEnd {
    ghost use Rattle.std.specs.Prelude.{◌≡◌};
    ghost use Rattle.serve_start.specs.declared.end.ServeEnd.TheVariants.{Memory};

    ghost from_gives = { λ _ end. end ≡ Memory };

    fn from(_error: WantOfMemory) -> ServeEnd {
        ServeEnd::Memory
    }
}

/// What the program says of it.
impl fmt::Display for ServeEnd {
    fn fmt<W: fmt::Write>(&self, f: &mut fmt::Formatter<W>) -> fmt::Result {
        match self {
            ServeEnd::Closed => write!(f, "every socket was closed"),
            ServeEnd::Usage { why } => write!(f, "usage: {why} (docportal serve --help)"),
            ServeEnd::NoRoot { why } => write!(f, "usage: the folder of --root: {why}"),
            ServeEnd::NoSocket { path, why } => {
                write!(f, "no socket at {}: {why}", path.as_str())
            }
            ServeEnd::FewFiles { wanted, allowed } => write!(
                f,
                "no socket: {wanted} files are open at once, and {allowed} may be (ulimit -n, \
                LimitNOFILE=)"
            ),
            ServeEnd::FewThreads { wanted } => write!(
                f,
                "no socket: the system doesn't give {wanted} threads (ulimit -u, ulimit -v, \
                TasksMax=)"
            ),
            ServeEnd::NoTrial { why } => write!(f, "no socket: no thread is tried: {why}"),
            ServeEnd::NoSeed { why } => write!(f, "no socket: {why}"),
            ServeEnd::KeeperFault { why } => write!(f, "store fault: {why}"),
            ServeEnd::BadRecord { index } => write!(f, "bad record {index} in the store"),
            ServeEnd::Memory => write!(f, "no memory"),
            ServeEnd::BadVersion { found } => write!(f, "the store is of version {found}"),
            ServeEnd::SocketFault => write!(f, "a socket failed"),
        }
    }
}
