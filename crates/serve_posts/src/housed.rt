//! What keeps a history, in a box.

ghost use Rattle.std.specs.Prelude.{◌≡◌, IfOk};

use portal_base::memory::WantOfMemory;
use portal_core::renewal::RenewError;
use portal_core::storied::{Renews, Storied};
use portal_model::reply::{Refused, Reply};
use portal_model::request::Request;
use std::alloc::Global;
use std::marker::Model;

/// What keeps a history, in a box. It goes from seat to seat with each request, and a portal by
/// itself would be some four thousand bytes to be moved each time.
///
/// Contracts see what is in the box.
#[derive(Drop)]
pub(crate) struct Housed<S> {
    inner: Box<S>,
}

impl<S> Model for Housed<S> {
    ghost Value = { S };

    ghost coded = { S.code };

    ghost view = { λ h. h.inner.value };
}

impl<S: Drop> Housed<S> {
    /// In a box, or want of memory, which drops it.
    pub(crate) fn new(alloc: Global, story: S) -> Result<Housed<S>, WantOfMemory>
        ensures { IfOk result (λ h. h ≡ story) }
    {
        Ok(Housed {
            inner: Box::new(alloc, story)?,
        })
    }
}

impl<S> Housed<S> {
    /// What was in the box.
    pub(crate) fn into_inner(self) -> S
        ensures { result ≡ self }
    {
        let Housed { inner } = self;
        Box::into_inner(inner)
    }
}

impl<S: Storied> Storied for Housed<S> {
    ghost opening = { S.opening };

    ghost entries = { S.entries };

    ghost says = { S.says };

    ghost spends = { S.spends };

    ghost refusals = { S.refusals };

    ghost stays = { S.stays };

    fn ask(&mut self, alloc: Global, seat: u32, request: Request) -> Result<Reply, Refused> {
        self.inner.as_mut().ask(alloc, seat, request)
    }

    fn entry_count(&self) -> u64 {
        self.inner.entry_count()
    }

    fn known(&self) {
        self.inner.known();
    }
}

impl<S: Renews> Renews for Housed<S> {
    fn renew(&mut self, alloc: Global) -> Result<(), RenewError> {
        self.inner.as_mut().renew(alloc)
    }

    fn keep_ahead(&mut self, alloc: Global, count: u32) {
        self.inner.as_mut().keep_ahead(alloc, count)
    }
}
