//! Whether two views, or two items of traces, are the same.

ghost use Rattle.std.specs.Prelude.{◌≡◌, IsTrue, ◌↔◌};

use crate::same::Same;
use crate::trace::TraceItem;
use crate::view::{
    AppView, Content, HeldDocument, Holding, NamedFile, OwnConnection, OwnHandle, PathBelow,
    PathContent,
};
use portal_base::files::{File, FileName};
use portal_model::entry::Fault;
use portal_model::handle::Handle;
use portal_model::naming::Naming;
use portal_model::reply::DirName;
use portal_model::state::Document;
use portal_model::temporary::{OwnTemp, Temp};
use rights_rule::Rights;

impl Same for Rights {
    fn is_same(&self, other: &Rights) -> bool {
        *self == *other
    }
}

impl Same for Fault {
    fn is_same(&self, other: &Fault) -> bool {
        match self {
            Fault::None => matches!(other, Fault::None),
            Fault::Tree => matches!(other, Fault::Tree),
            Fault::Keeper => matches!(other, Fault::Keeper),
        }
    }
}

impl Same for Document {
    fn is_same(&self, other: &Document) -> bool {
        self.id.is_same(&other.id)
            && self.path.is_same(&other.path)
            && self.persistent == other.persistent
            && self.reusable == other.reusable
            && self.strict == other.strict
            && self.folder == other.folder
    }
}

impl Same for FileName {
    fn is_same(&self, other: &FileName) -> bool {
        self.path.is_same(&other.path) && self.generation == other.generation
    }
}

impl Same for DirName {
    fn is_same(&self, other: &DirName) -> bool {
        self.node == other.node && self.name.is_same(&other.name) && self.folder == other.folder
    }
}

impl Same for Handle {
    fn is_same(&self, other: &Handle) -> bool {
        match self {
            Handle::File {
                name,
                node,
                document,
                strict,
                read,
                write,
            } => match other {
                Handle::File {
                    name: n,
                    node: o,
                    document: d,
                    strict: s,
                    read: r,
                    write: w,
                } => {
                    name.is_same(n)
                        && *node == *o
                        && document.is_same(d)
                        && *strict == *s
                        && *read == *r
                        && *write == *w
                }
                Handle::Folder { .. } => false,
            },
            Handle::Folder { node, names } => match other {
                Handle::Folder { node: o, names: n } => *node == *o && names.is_same(n),
                Handle::File { .. } => false,
            },
        }
    }
}

impl Same for Content {
    fn is_same(&self, other: &Content) -> bool {
        match self {
            Content::File {
                generation,
                bytes,
                moment,
            } => match other {
                Content::File {
                    generation: g,
                    bytes: b,
                    moment: m,
                } => *generation == *g && bytes.is_same(b) && *moment == *m,
                _ => false,
            },
            Content::Folder => matches!(other, Content::Folder),
            Content::Missing { room } => match other {
                Content::Missing { room: r } => *room == *r,
                _ => false,
            },
        }
    }
}

impl Same for File {
    fn is_same(&self, other: &File) -> bool {
        self.path.is_same(&other.path)
            && self.generation == other.generation
            && self.bytes.is_same(&other.bytes)
            && self.moment == other.moment
    }
}

impl Same for Holding {
    fn is_same(&self, other: &Holding) -> bool {
        match self {
            Holding::Alone { content } => match other {
                Holding::Alone { content: c } => content.is_same(c),
                _ => false,
            },
            Holding::Below { files } => match other {
                Holding::Below { files: f } => files.is_same(f),
                _ => false,
            },
        }
    }
}

impl Same for HeldDocument {
    fn is_same(&self, other: &HeldDocument) -> bool {
        self.document.is_same(&other.document) && self.rights.is_same(&other.rights)
    }
}

impl Same for OwnHandle {
    fn is_same(&self, other: &OwnHandle) -> bool {
        self.fh == other.fh && self.handle.is_same(&other.handle)
    }
}

impl Same for Naming {
    fn is_same(&self, other: &Naming) -> bool {
        self.view == other.view
            && self.document.is_same(&other.document)
            && self.path.is_same(&other.path)
    }
}

impl Same for Temp {
    fn is_same(&self, other: &Temp) -> bool {
        self.document.is_same(&other.document)
            && self.view == other.view
            && self.name.is_same(&other.name)
            && self.file.is_same(&other.file)
    }
}

impl Same for OwnTemp {
    fn is_same(&self, other: &OwnTemp) -> bool {
        self.k == other.k && self.temp.is_same(&other.temp)
    }
}

impl Same for OwnConnection {
    fn is_same(&self, other: &OwnConnection) -> bool {
        self.seat == other.seat
            && self.app.is_same(&other.app)
            && self.kind.is_same(&other.kind)
            && self.queue.is_same(&other.queue)
            && self.opens == other.opens
            && self.handles.is_same(&other.handles)
            && self.namings.is_same(&other.namings)
            && self.temps.is_same(&other.temps)
            && self.added == other.added
    }
}

impl Same for PathContent {
    fn is_same(&self, other: &PathContent) -> bool {
        self.path.is_same(&other.path) && self.content.is_same(&other.content)
    }
}

impl Same for PathBelow {
    fn is_same(&self, other: &PathBelow) -> bool {
        self.path.is_same(&other.path) && self.files.is_same(&other.files)
    }
}

impl Same for NamedFile {
    fn is_same(&self, other: &NamedFile) -> bool {
        self.name.is_same(&other.name)
            && self.bytes.is_same(&other.bytes)
            && self.moment == other.moment
    }
}

impl Same for AppView {
    fn is_same(&self, other: &AppView) -> bool {
        self.handles == other.handles
            && self.queued == other.queued
            && self.file_bytes == other.file_bytes
            && self.documents.is_same(&other.documents)
            && self.connections.is_same(&other.connections)
            && self.contents.is_same(&other.contents)
            && self.below.is_same(&other.below)
            && self.files.is_same(&other.files)
    }
}

impl Same for TraceItem {
    fn is_same(&self, other: &TraceItem) -> bool {
        match self {
            TraceItem::Own {
                seat,
                request,
                now,
                numbers,
                shown,
                reused,
                looks,
                full,
                fault,
                generation,
            } => match other {
                TraceItem::Own {
                    seat: other_seat,
                    request: other_request,
                    now: other_now,
                    numbers: other_numbers,
                    shown: other_shown,
                    reused: other_reused,
                    looks: other_looks,
                    full: other_full,
                    fault: other_fault,
                    generation: other_generation,
                } => {
                    *seat == *other_seat
                        && request.is_same(other_request)
                        && now.is_same(other_now)
                        && numbers.is_same(other_numbers)
                        && shown.is_same(other_shown)
                        && reused.is_same(other_reused)
                        && *looks == *other_looks
                        && *full == *other_full
                        && fault.is_same(other_fault)
                        && generation.is_same(other_generation)
                }
                _ => false,
            },
            TraceItem::Gained {
                document,
                rights,
                holding,
            } => match other {
                TraceItem::Gained {
                    document: d,
                    rights: r,
                    holding: h,
                } => document.is_same(d) && rights.is_same(r) && holding.is_same(h),
                _ => false,
            },
            TraceItem::Lost { id, rights } => match other {
                TraceItem::Lost { id: i, rights: r } => id.is_same(i) && rights.is_same(r),
                _ => false,
            },
            TraceItem::Gone { id } => match other {
                TraceItem::Gone { id: i } => id.is_same(i),
                _ => false,
            },
            TraceItem::Bytes {
                path,
                generation,
                content,
            } => match other {
                TraceItem::Bytes {
                    path: p,
                    generation: g,
                    content: c,
                } => path.is_same(p) && *generation == *g && content.is_same(c),
                _ => false,
            },
            TraceItem::Turned {
                path,
                generation,
                content,
            } => match other {
                TraceItem::Turned {
                    path: p,
                    generation: g,
                    content: c,
                } => path.is_same(p) && *generation == *g && content.is_same(c),
                _ => false,
            },
        }
    }
}
