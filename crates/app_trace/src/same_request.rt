//! Whether two requests are the same.

ghost use Rattle.std.specs.Prelude.{◌≡◌, IsTrue, ◌↔◌};

use crate::same::Same;
use portal_base::who::{Kind, Who};
use portal_model::request::{AddRequest, ForgetItem, NodeOp, NodeRequest, Request, RightsCall};

impl Same for Who {
    fn is_same(&self, other: &Who) -> bool {
        match self {
            Who::Host => matches!(other, Who::Host),
            Who::App(name) => match other {
                Who::App(app) => name.is_same(app),
                Who::Host => false,
            },
        }
    }
}

impl Same for Kind {
    fn is_same(&self, other: &Kind) -> bool {
        match self {
            Kind::Bus => matches!(other, Kind::Bus),
            Kind::Mount => matches!(other, Kind::Mount),
        }
    }
}

impl Same for ForgetItem {
    fn is_same(&self, other: &ForgetItem) -> bool {
        self.node == other.node && self.count == other.count
    }
}

impl Same for NodeRequest {
    fn is_same(&self, other: &NodeRequest) -> bool {
        self.node == other.node
            && self.uid == other.uid
            && self.gid == other.gid
            && self.op.is_same(&other.op)
    }
}

impl Same for AddRequest {
    fn is_same(&self, other: &AddRequest) -> bool {
        self.named == other.named
            && self.full == other.full
            && self.handles.is_same(&other.handles)
            && self.fds == other.fds
            && self.name.is_same(&other.name)
            && self.flags == other.flags
            && self.app.is_same(&other.app)
            && self.names.is_same(&other.names)
    }
}

impl Same for RightsCall {
    fn is_same(&self, other: &RightsCall) -> bool {
        self.doc.is_same(&other.doc)
            && self.app.is_same(&other.app)
            && self.names.is_same(&other.names)
    }
}

impl Same for NodeOp {
    fn is_same(&self, other: &NodeOp) -> bool {
        match self {
            NodeOp::Lookup { name } => match other {
                NodeOp::Lookup { name: n } => name.is_same(n),
                _ => false,
            },
            NodeOp::Forget { count } => match other {
                NodeOp::Forget { count: c } => *count == *c,
                _ => false,
            },
            NodeOp::BatchForget { nodes } => match other {
                NodeOp::BatchForget { nodes: n } => nodes.is_same(n),
                _ => false,
            },
            NodeOp::GetAttr { flags, fh } => match other {
                NodeOp::GetAttr { flags: f, fh: h } => *flags == *f && *fh == *h,
                _ => false,
            },
            NodeOp::SetAttr { valid, fh, size } => match other {
                NodeOp::SetAttr {
                    valid: v,
                    fh: h,
                    size: s,
                } => *valid == *v && *fh == *h && *size == *s,
                _ => false,
            },
            NodeOp::Open { flags } => match other {
                NodeOp::Open { flags: f } => *flags == *f,
                _ => false,
            },
            NodeOp::Create { name, flags } => match other {
                NodeOp::Create { name: n, flags: f } => name.is_same(n) && *flags == *f,
                _ => false,
            },
            NodeOp::Read { fh, offset, size } => match other {
                NodeOp::Read {
                    fh: h,
                    offset: o,
                    size: s,
                } => *fh == *h && *offset == *o && *size == *s,
                _ => false,
            },
            NodeOp::Write {
                fh,
                offset,
                content,
            } => match other {
                NodeOp::Write {
                    fh: h,
                    offset: o,
                    content: c,
                } => *fh == *h && *offset == *o && content.is_same(c),
                _ => false,
            },
            NodeOp::Flush { fh } => match other {
                NodeOp::Flush { fh: h } => *fh == *h,
                _ => false,
            },
            NodeOp::Fsync { fh } => match other {
                NodeOp::Fsync { fh: h } => *fh == *h,
                _ => false,
            },
            NodeOp::Release { fh } => match other {
                NodeOp::Release { fh: h } => *fh == *h,
                _ => false,
            },
            NodeOp::OpenDir => matches!(other, NodeOp::OpenDir),
            NodeOp::ReadDir { fh, offset, size } => match other {
                NodeOp::ReadDir {
                    fh: h,
                    offset: o,
                    size: s,
                } => *fh == *h && *offset == *o && *size == *s,
                _ => false,
            },
            NodeOp::ReleaseDir { fh } => match other {
                NodeOp::ReleaseDir { fh: h } => *fh == *h,
                _ => false,
            },
            NodeOp::Access { mask } => match other {
                NodeOp::Access { mask: m } => *mask == *m,
                _ => false,
            },
            NodeOp::Rename {
                new_parent,
                flags,
                old_name,
                new_name,
            } => match other {
                NodeOp::Rename {
                    new_parent: p,
                    flags: f,
                    old_name: o,
                    new_name: n,
                } => {
                    *new_parent == *p && *flags == *f && old_name.is_same(o) && new_name.is_same(n)
                }
                _ => false,
            },
            NodeOp::Unlink { name } => match other {
                NodeOp::Unlink { name: n } => name.is_same(n),
                _ => false,
            },
        }
    }
}

impl Same for Request {
    fn is_same(&self, other: &Request) -> bool {
        match self {
            Request::Enter { who, kind } => match other {
                Request::Enter { who: w, kind: k } => who.is_same(w) && kind.is_same(k),
                _ => false,
            },
            Request::Leave => matches!(other, Request::Leave),
            Request::Collect => matches!(other, Request::Collect),
            Request::Present { path } => match other {
                Request::Present { path: p } => path.is_same(p),
                _ => false,
            },
            Request::Add(add) => match other {
                Request::Add(a) => add.is_same(a),
                _ => false,
            },
            Request::Grant(call) => match other {
                Request::Grant(c) => call.is_same(c),
                _ => false,
            },
            Request::Revoke(call) => match other {
                Request::Revoke(c) => call.is_same(c),
                _ => false,
            },
            Request::DeleteDocument { doc } => match other {
                Request::DeleteDocument { doc: d } => doc.is_same(d),
                _ => false,
            },
            Request::LookupDocument { path } => match other {
                Request::LookupDocument { path: p } => path.is_same(p),
                _ => false,
            },
            Request::Info { doc } => match other {
                Request::Info { doc: d } => doc.is_same(d),
                _ => false,
            },
            Request::ListDocuments { app } => match other {
                Request::ListDocuments { app: a } => app.is_same(a),
                _ => false,
            },
            Request::Store(call) => match other {
                Request::Store(c) => call.is_same(c),
                _ => false,
            },
            Request::Node(request) => match other {
                Request::Node(r) => request.is_same(r),
                _ => false,
            },
        }
    }
}
