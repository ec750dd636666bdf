//! The unsent signals of one connection.

ghost use Rattle.std.specs.Prelude.{◌≡◌, ◌↔◌, [], IfOk, OnOk, OnErr, IsTrue};
ghost use Rattle.change_signals.specs.Unsent.{with_last, without_last};

use dbus_types::shared::Shared;
use portal_base::list::List;
use portal_base::memory::{Replica, WantOfMemory};
use portal_model::reply::Change;
use std::alloc::Global;
use std::marker::Model;
use std::mem::replace;

/// The unsent signals of one connection.
///
/// A change is one for all connections that it is told to, and is copied for
/// each when that takes it. Contracts see the list of all changes.
#[derive(Drop)]
pub(crate) struct Outbox {
    // They are the connection's own, stand ahead of the others, and came back without memory.
    returned: List<Change>,
    posted: List<Shared<Change>>,
}

impl Model for Outbox {
    ghost use Rattle.std.specs.Prelude.{List, ◌++◌};
    ghost use Rattle.dbus_types.specs.contracts.types.Value as e;
    ghost use Rattle.std.specs.Coded.{codes};
    ghost use Rattle.portal_model.specs.declared.reply.Change.{Change};

    ghost Value = { List Change };

    ghost coded = { Prim.hlevel (codes, e.the_row.coded) };

    ghost view = { λ b. b.returned ++ b.posted };
}

impl Outbox {
    /// Nothing is unsent.
    pub(crate) fn new(alloc: Global) -> Outbox
        ensures { result ≡ [] }
    {
        Outbox {
            returned: List::new(alloc),
            posted: List::new(alloc),
        }
    }

    /// Whether nothing is unsent.
    pub(crate) fn is_empty(&self) -> bool
        ensures { IsTrue result ↔ (self.now ≡ []) }
    {
        self.returned.is_empty() && self.posted.is_empty()
    }

    /// A change is told behind what is unsent.
    pub(crate) fn push(&mut self, change: Shared<Change>) -> Result<(), WantOfMemory>
        ensures ok { OnOk result (self.new ≡ with_last change self.old) }
        ensures err { OnErr result (self.new ≡ self.old) }
    {
        self.posted.push(change)
    }

    /// The last signal goes. It takes no memory.
    pub(crate) fn pop(&mut self)
        ensures { self.new ≡ without_last self.old }
    {
        if self.posted.pop().is_none() {
            self.returned.pop();
        }
    }

    /// The unsent signals, of which none is unsent then. Where there is no memory
    /// for the copies all are as they were.
    pub(crate) fn take(&mut self, alloc: Global) -> Result<List<Change>, WantOfMemory>
        ensures signals { IfOk result (λ signals. signals ≡ self.old) }
        ensures ok { OnOk result (self.new ≡ []) }
        ensures err { OnErr result (self.new ≡ self.old) }
    {
        let copies = copies_of(alloc, self.posted.as_slice())?;
        self.returned.append(copies)?;
        self.posted = List::new(alloc);
        Ok(replace(&mut self.returned, List::new(alloc)))
    }

    /// These signals are unsent, and no others. It takes no memory.
    pub(crate) fn hold(&mut self, alloc: Global, signals: List<Change>)
        ensures { self.new ≡ signals }
    {
        self.returned = signals;
        self.posted = List::new(alloc);
    }
}

/// Copies of changes that others own too.
fn copies_of(alloc: Global, posted: &[Shared<Change>]) -> Result<List<Change>, WantOfMemory>
    ensures { IfOk result (λ copies. copies ≡ posted.now) }
{
    let mut copies = List::new(alloc);
    for change in posted {
        copies.push(change.get().replica(alloc)?)?;
    }
    Ok(copies)
}
