//! What is asked of the portal.

ghost use Rattle.std.specs.Prelude.{◌≡◌};
ghost use Rattle.portal_model.specs.GetAttr.{names_handle as is_by_handle};

use crate::store::StoreCall;
use portal_base::list::{ByteList, List};
use portal_base::memory::{Replica, WantOfMemory};
use portal_base::text::Text;
use portal_base::who::{Kind, Who};
use std::alloc::Global;

/// A node that the kernel forgets, in a FUSE_BATCH_FORGET.
#[derive(Clone, Copy, Debug, PartialEq, Eq)]
pub struct ForgetItem {
    /// The number of the node.
    pub node: u64,
    /// How many of its look-ups are forgotten.
    pub count: u64,
}

/// What is asked of a node of the file view: the requests of
/// `include/uapi/linux/fuse.h` that the portal answers, with the fields that
/// its answers depend on. A name has no zero byte at its end.
#[derive(Debug, Drop)]
pub enum NodeOp {
    /// FUSE_LOOKUP.
    Lookup {
        /// The name in the folder.
        name: ByteList,
    },
    /// FUSE_FORGET.
    Forget {
        /// How many of the node's look-ups are forgotten.
        count: u64,
    },
    /// FUSE_BATCH_FORGET.
    BatchForget {
        /// The nodes.
        nodes: List<ForgetItem>,
    },
    /// FUSE_GETATTR.
    GetAttr {
        /// Bit 0 says that `fh` names an open handle.
        flags: u32,
        /// The number of a handle.
        fh: u64,
    },
    /// FUSE_SETATTR.
    SetAttr {
        /// The bits say which attributes are to be set.
        valid: u32,
        /// The number of a handle.
        fh: u64,
        /// The length that is asked for, in bytes.
        size: u64,
    },
    /// FUSE_OPEN.
    Open {
        /// The flags of open(2).
        flags: u32,
    },
    /// FUSE_CREATE.
    Create {
        /// The name in the folder.
        name: ByteList,
        /// The flags of open(2).
        flags: u32,
    },
    /// FUSE_READ.
    Read {
        /// The number of a handle.
        fh: u64,
        /// The place of the first byte.
        offset: u64,
        /// At most so many bytes.
        size: u32,
    },
    /// FUSE_WRITE.
    Write {
        /// The number of a handle.
        fh: u64,
        /// The place of the first byte.
        offset: u64,
        /// The bytes.
        content: ByteList,
    },
    /// FUSE_FLUSH.
    Flush {
        /// The number of a handle.
        fh: u64,
    },
    /// FUSE_FSYNC.
    Fsync {
        /// The number of a handle.
        fh: u64,
    },
    /// FUSE_RELEASE.
    Release {
        /// The number of a handle.
        fh: u64,
    },
    /// FUSE_OPENDIR.
    OpenDir,
    /// FUSE_READDIR.
    ReadDir {
        /// The number of a handle.
        fh: u64,
        /// The place of the first entry.
        offset: u64,
        /// At most so many bytes of entries.
        size: u32,
    },
    /// FUSE_RELEASEDIR.
    ReleaseDir {
        /// The number of a handle.
        fh: u64,
    },
    /// FUSE_ACCESS.
    Access {
        /// The rights that are asked for, as in access(2).
        mask: u32,
    },
    /// FUSE_RENAME and FUSE_RENAME2, on the folder of the old name.
    Rename {
        /// The folder of the new name.
        new_parent: u64,
        /// The flags of renameat2(2); a FUSE_RENAME has none.
        flags: u32,
        /// The old name.
        old_name: ByteList,
        /// The new name.
        new_name: ByteList,
    },
    /// FUSE_UNLINK.
    Unlink {
        /// The name.
        name: ByteList,
    },
}

/// The bit of the flags of a FUSE_GETATTR that says that it names an open
/// handle.
const FUSE_GETATTR_FH: u32 = 1;

/// Says whether a FUSE_GETATTR with these flags names an open handle.
pub fn names_handle(flags: u32) -> bool
    ensures { result ≡ is_by_handle flags }
{
    // A GETATTR with the flag goes by the handle where it is of a file, by the node where it is of
    // a folder; other bits are passed over.
    flags & FUSE_GETATTR_FH != 0
}

/// A request on a node of the file view.
#[derive(Debug, Drop)]
pub struct NodeRequest {
    /// The number of the node.
    pub node: u64,
    /// The user that asks, who owns what is answered.
    pub uid: u32,
    /// The user's group.
    pub gid: u32,
    /// What is asked.
    pub op: NodeOp,
}

/// What an Add, AddFull, AddNamed or AddNamedFull of
/// `org.freedesktop.portal.Documents` asks: files are to become documents.
#[derive(Debug, Drop)]
pub struct AddRequest {
    /// Whether the files are named in the folders that were presented.
    pub named: bool,
    /// Whether it is a full call, whose answer tells the mount point too.
    pub full: bool,
    /// The places of the files among the presented ones, from 0.
    pub handles: List<u32>,
    /// How many presented files the call takes.
    pub fds: u32,
    /// The name of the file in its folder, with the zero byte that ends it;
    /// empty where the files aren't named.
    pub name: ByteList,
    /// The flags: 1 to use a document again, 2 to keep it beyond the run, 4 to
    /// leave out what the application holds in its own folder.
    pub flags: u32,
    /// The application that is given permissions, or nothing.
    pub app: ByteList,
    /// The permissions that it is given.
    pub names: List<Text>,
}

/// What a GrantPermissions or a RevokePermissions of
/// `org.freedesktop.portal.Documents` asks.
#[derive(Debug, Drop)]
pub struct RightsCall {
    /// The identifier of the document.
    pub doc: ByteList,
    /// The application.
    pub app: ByteList,
    /// The permissions.
    pub names: List<Text>,
}

// Texts stand here as they came, with the zero byte that ends a path: each byte of them is counted
// in the cost of the history.
/// A request to the portal. An identifier, an application's name and a path are
/// held as they came, whatever is in them.
#[derive(Debug, Drop)]
pub enum Request {
    /// A connection is opened.
    Enter {
        /// Whom it is bound to.
        who: Who,
        /// What it speaks.
        kind: Kind,
    },
    /// The open connection of the seat is closed.
    Leave,
    /// A bus asks for the changes of the permission store that it was not told
    /// yet, and for nothing else.
    Collect,
    /// A file joins the queue of the connection.
    Present {
        /// Its path on the host, with the zero byte that ends it.
        path: ByteList,
    },
    /// Presented files become documents.
    Add(AddRequest),
    /// An application is given permissions in a document.
    Grant(RightsCall),
    /// Permissions of an application in a document are taken away.
    Revoke(RightsCall),
    /// A document is removed.
    DeleteDocument {
        /// Its identifier.
        doc: ByteList,
    },
    /// Which document has a path.
    LookupDocument {
        /// The path on the host, with the zero byte that ends it.
        path: ByteList,
    },
    /// The path of a document, and who has which permissions in it.
    Info {
        /// Its identifier.
        doc: ByteList,
    },
    /// The documents in which an application has a permission, or all.
    ListDocuments {
        /// The application, or nothing for all documents.
        app: ByteList,
    },
    /// A call of the permission store.
    Store(StoreCall),
    /// A request on a node.
    Node(NodeRequest),
}

impl Replica for Request {
    fn replica(&self, alloc: Global) -> Result<Request, WantOfMemory> {
        match self {
            Request::Enter { who, kind } => Ok(Request::Enter {
                who: who.replica(alloc)?,
                kind: *kind,
            }),
            Request::Leave => Ok(Request::Leave),
            Request::Collect => Ok(Request::Collect),
            Request::Present { path } => Ok(Request::Present {
                path: path.replica(alloc)?,
            }),
            Request::Add(add) => Ok(Request::Add(add.replica(alloc)?)),
            Request::Grant(call) => Ok(Request::Grant(call.replica(alloc)?)),
            Request::Revoke(call) => Ok(Request::Revoke(call.replica(alloc)?)),
            Request::DeleteDocument { doc } => Ok(Request::DeleteDocument {
                doc: doc.replica(alloc)?,
            }),
            Request::LookupDocument { path } => Ok(Request::LookupDocument {
                path: path.replica(alloc)?,
            }),
            Request::Info { doc } => Ok(Request::Info {
                doc: doc.replica(alloc)?,
            }),
            Request::ListDocuments { app } => Ok(Request::ListDocuments {
                app: app.replica(alloc)?,
            }),
            Request::Store(call) => Ok(Request::Store(call.replica(alloc)?)),
            Request::Node(request) => Ok(Request::Node(request.replica(alloc)?)),
        }
    }
}

impl Replica for AddRequest {
    fn replica(&self, alloc: Global) -> Result<AddRequest, WantOfMemory> {
        Ok(AddRequest {
            named: self.named,
            full: self.full,
            handles: List::copied(alloc, self.handles.as_slice())?,
            fds: self.fds,
            name: self.name.replica(alloc)?,
            flags: self.flags,
            app: self.app.replica(alloc)?,
            names: self.names.replica(alloc)?,
        })
    }
}

impl Replica for RightsCall {
    fn replica(&self, alloc: Global) -> Result<RightsCall, WantOfMemory> {
        Ok(RightsCall {
            doc: self.doc.replica(alloc)?,
            app: self.app.replica(alloc)?,
            names: self.names.replica(alloc)?,
        })
    }
}

impl Replica for NodeRequest {
    fn replica(&self, alloc: Global) -> Result<NodeRequest, WantOfMemory> {
        Ok(NodeRequest {
            node: self.node,
            uid: self.uid,
            gid: self.gid,
            op: self.op.replica(alloc)?,
        })
    }
}

impl Replica for ForgetItem {
    fn replica(&self, _alloc: Global) -> Result<ForgetItem, WantOfMemory> {
        Ok(*self)
    }
}

impl Replica for NodeOp {
    fn replica(&self, alloc: Global) -> Result<NodeOp, WantOfMemory> {
        Ok(match self {
            NodeOp::Lookup { name } => NodeOp::Lookup {
                name: name.replica(alloc)?,
            },
            &NodeOp::Forget { count } => NodeOp::Forget { count },
            NodeOp::BatchForget { nodes } => NodeOp::BatchForget {
                nodes: nodes.replica(alloc)?,
            },
            &NodeOp::GetAttr { flags, fh } => NodeOp::GetAttr { flags, fh },
            &NodeOp::SetAttr { valid, fh, size } => NodeOp::SetAttr { valid, fh, size },
            &NodeOp::Open { flags } => NodeOp::Open { flags },
            NodeOp::Create { name, flags } => NodeOp::Create {
                name: name.replica(alloc)?,
                flags: *flags,
            },
            &NodeOp::Read { fh, offset, size } => NodeOp::Read { fh, offset, size },
            NodeOp::Write {
                fh,
                offset,
                content,
            } => NodeOp::Write {
                fh: *fh,
                offset: *offset,
                content: content.replica(alloc)?,
            },
            &NodeOp::Flush { fh } => NodeOp::Flush { fh },
            &NodeOp::Fsync { fh } => NodeOp::Fsync { fh },
            &NodeOp::Release { fh } => NodeOp::Release { fh },
            NodeOp::OpenDir => NodeOp::OpenDir,
            &NodeOp::ReadDir { fh, offset, size } => NodeOp::ReadDir { fh, offset, size },
            &NodeOp::ReleaseDir { fh } => NodeOp::ReleaseDir { fh },
            &NodeOp::Access { mask } => NodeOp::Access { mask },
            NodeOp::Rename {
                new_parent,
                flags,
                old_name,
                new_name,
            } => NodeOp::Rename {
                new_parent: *new_parent,
                flags: *flags,
                old_name: old_name.replica(alloc)?,
                new_name: new_name.replica(alloc)?,
            },
            NodeOp::Unlink { name } => NodeOp::Unlink {
                name: name.replica(alloc)?,
            },
        })
    }
}
