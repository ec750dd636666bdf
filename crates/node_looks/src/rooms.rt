//! Room for looks that is taken ahead of requests.

ghost use Rattle.std.specs.Prelude.{◌≡◌, ◌+◌, ◌<◌, ◌≤◌, length, IfOk, IsOk, OnErr, OnOk};
ghost use Rattle.node_looks.specs.Rooms.{AreRooms};

use crate::asked::room_for_look;
use portal_base::files::Look;
use portal_base::list::List;
use portal_base::memory::WantOfMemory;
use std::alloc::Global;
use std::marker::Model;

/// Lists with room for one look each. They are lent to requests that look at the tree
/// once, for which there is no other memory then.
///
/// Contracts see how many there are.
#[derive(Drop)]
pub struct LookRooms {
    lists: List<List<Look>>,
}

impl Model for LookRooms {
    ghost use Rattle.std.specs.Prelude.{ℕ, length};
    ghost use Rattle.node_looks.specs.Rooms.{AreRooms};

    ghost Value = { ℕ };

    ghost view = { λ r. length r.lists };

    ghost invariant = { λ r. AreRooms r.lists };
}

impl LookRooms {
    /// No list.
    pub fn new(alloc: Global) -> LookRooms
        ensures { result ≡ 0 }
    {
        LookRooms {
            lists: List::new(alloc),
        }
    }

    /// How many lists there are.
    pub fn len(&self) -> usize
        ensures { result ≡ self.now }
    {
        self.lists.len()
    }

    /// Makes `count` lists of them, where there aren't as many; where there are, no
    /// memory is wanted. Where there is no memory some may have been made.
    pub fn reserve(&mut self, alloc: Global, count: u32) -> Result<(), WantOfMemory>
        ensures ok { OnOk result (count ≤ self.new) }
        ensures more { self.old ≤ self.new }
        ensures reserved { count ≤ self.old → IsOk result }
    {
        fill(alloc, &mut self.lists, count as usize)
    }

    /// A list with room for the look of a request: a new one where there is memory, and
    /// else one of these.
    pub fn take(&mut self, alloc: Global) -> Result<List<Look>, WantOfMemory>
        ensures ok { IfOk result (λ room. length room ≡ 1) }
        ensures fewer { self.old ≤ self.new + 1 }
        ensures reserved { 0 < self.old → IsOk result }
        ensures err { OnErr result (self.new ≡ self.old) }
    {
        match room_for_look(alloc) {
            Ok(room) => Ok(room),
            Err(error) => lent(&mut self.lists, error),
        }
    }
}

/// Makes lists until there are `count`.
fn fill(alloc: Global, lists: &mut List<List<Look>>, count: usize) -> Result<(), WantOfMemory>
    requires { AreRooms lists.old }
    ensures rooms { AreRooms lists.new }
    ensures ok { OnOk result (count ≤ length lists.new) }
    ensures more { length lists.old ≤ length lists.new }
    ensures reserved { count ≤ length lists.old → IsOk result }
{
    'fill: while lists.len() < count {
        lists.push(room_for_look(alloc)?)?;
    }
    Ok(())
}

/// One of the lists, or this error where there is none.
fn lent(lists: &mut List<List<Look>>, error: WantOfMemory) -> Result<List<Look>, WantOfMemory>
    requires { AreRooms lists.old }
    ensures rooms { AreRooms lists.new }
    ensures ok { IfOk result (λ room. length room ≡ 1) }
    ensures fewer { length lists.old ≤ length lists.new + 1 }
    ensures reserved { 0 < length lists.old → IsOk result }
    ensures err { OnErr result (lists.new ≡ lists.old) }
{
    match lists.pop() {
        Some(room) => Ok(room),
        None => Err(error),
    }
}
