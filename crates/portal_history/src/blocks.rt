//! Entries in blocks.
//!
//! Each block has room for the same number of entries, and the next one begins
//! once it is full. So an entry stays where it was put, and a division tells
//! which block has the entry at a place.

ghost use Rattle.std.specs.Prelude.{◌≡◌, ◌+◌, ◌-◌, ◌*◌, ◌<◌, ◌≤◌, [], ◌∷◌, ◌++◌, length, option_copied, slice_get, IfOk, IsOk, OnErr, OnOk, vec_len, vec_capacity};
ghost use Rattle.portal_history.specs.Blocks.{AreBlocks, AreFree, InBlocks, IsOpened, closed_behind, room_in};

use portal_base::list::List;
use portal_base::memory::WantOfMemory;
use portal_model::entry::Entry;
use std::alloc::Global;
use std::marker::Model;
use std::mem::replace;

/// How many entries a block has room for.
const BLOCK: usize = 1024;

/// At most so many blocks are taken. No machine has memory for them, and with
/// fewer each count of entries fits its type.
const MOST_BLOCKS: usize = 0x1_0000_0000;

/// A list of entries, none of which is moved when the list grows.
///
/// Contracts see the list, and the room for entries that was taken ahead.
#[derive(Drop)]
pub(crate) struct Blocks {
    alloc: Global,
    full: Vec<List<Entry>>,
    // The one that is filled. It has no room before the first block is begun.
    last: Vec<Entry>,
    // Those that were taken ahead, without an entry.
    ahead: Vec<Vec<Entry>>,
}

impl Model for Blocks {
    ghost use Rattle.dbus_types.specs.contracts.types.Value as e;
    ghost use Rattle.std.specs.Coded.{codes};
    ghost use Rattle.portal_history.specs.Blocks.{AreBlocks, InBlocks, items_in, room_in};

    ghost Value = { InBlocks };

    ghost coded = { Prim.hlevel (codes, e.the_row.coded) };

    ghost view = { λ b. record {
      entries = items_in b.full b.last;
      spare = room_in b.last b.ahead;
    } };

    ghost invariant = { λ b. AreBlocks b.full b.last b.ahead };
}

impl Blocks {
    /// No entry, and no room.
    pub(crate) fn new(alloc: Global) -> Blocks
        ensures entries { result.entries ≡ [] }
    {
        Blocks {
            alloc,
            full: Vec::new(alloc),
            last: Vec::new(alloc),
            ahead: Vec::new(alloc),
        }
    }

    /// The number of entries.
    pub(crate) fn len(&self) -> u64
        ensures { result ≡ length self.now.entries }
    {
        (self.full.len() * BLOCK + self.last.len()) as u64
    }

    /// The entry at a place, from 0.
    pub(crate) fn entry(&self, place: u64) -> Option<&Entry>
        ensures { option_copied result ≡ slice_get self.now.entries place }
    {
        let place = place as usize;
        match self.full.get(place / BLOCK) {
            Some(block) => block.get(place % BLOCK),
            None => self.last.get(place - self.full.len() * BLOCK),
        }
    }

    /// For how many more entries room was taken ahead.
    pub(crate) fn spare(&self) -> u64
        ensures { result ≡ self.now.spare }
    {
        let here = self.last.capacity() - self.last.len();
        (here + self.ahead.len() * BLOCK) as u64
    }

    /// Takes room for `count` more entries, where there isn't as much; where there is,
    /// no memory is wanted.
    pub(crate) fn reserve(&mut self, count: u32) -> Result<(), WantOfMemory>
        ensures ok { OnOk result (count ≤ self.new.spare) }
        ensures reserved { count ≤ self.old.spare → IsOk result }
        ensures err { OnErr result (self.new ≡ self.old) }
        ensures entries { self.new.entries ≡ self.old.entries }
        ensures spare { self.old.spare ≤ self.new.spare }
    {
        let spare = self.spare();
        let wanted = u64::from(count);
        if wanted <= spare {
            return Ok(());
        }
        self.take_ahead((wanted - spare).div_ceil(BLOCK as u64) as usize)
    }

    /// Takes so many blocks ahead.
    fn take_ahead(&mut self, count: usize) -> Result<(), WantOfMemory>
        ensures ok { OnOk result (self.new ≡ record self.old {
          spare = self.old.spare + 1024 * count;
        }) }
        ensures err { OnErr result (self.new ≡ self.old) }
    {
        if count > MOST_BLOCKS - (self.full.len() + self.ahead.len()) {
            return Err(WantOfMemory);
        }
        // All memory is there before a block is kept, so that a refusal changes nothing. A block
        // that is taken has its place among the full ones from here on, so that none is wanted
        // when it is closed.
        let mut free = free_blocks(self.alloc, count)?;
        self.full.reserve(self.ahead.len() + count)?;
        self.ahead.append(&mut free)?;
        Ok(())
    }

    /// Puts an entry at the end, into room that was taken ahead.
    pub(crate) fn push(&mut self, entry: Entry)
        requires room { 0 < self.old.spare }
        ensures { self.new ≡ record {
          entries = self.old.entries ++ entry ∷ [];
          spare = self.old.spare - 1;
        } }
    {
        open(&mut self.full, &mut self.last, &mut self.ahead);
        self.last.push_reserved(entry);
    }
}

/// Begins the next block, where the last one has no room.
fn open(full: &mut Vec<List<Entry>>, last: &mut Vec<Entry>, ahead: &mut Vec<Vec<Entry>>)
    requires stand { AreBlocks full.old last.old ahead.old }
    requires room { 0 < room_in last.old ahead.old }
    ensures { IsOpened full.old last.old ahead.old full.new last.new ahead.new }
{
    if last.len() < last.capacity() {
        return;
    }
    let next = ahead.take_last();
    let filled = replace(last, next);
    close(full, filled);
}

/// Puts a block behind the full ones, but for one that never had room.
fn close(full: &mut Vec<List<Entry>>, filled: Vec<Entry>)
    requires room { vec_len full.old < vec_capacity full.old }
    ensures blocks { full.new.items ≡ closed_behind full.old.items filled.items }
    ensures len { vec_len full.new ≤ vec_len full.old + 1 }
    ensures capacity { vec_capacity full.new ≡ vec_capacity full.old }
{
    if filled.is_empty() {
        drop(filled);
    } else {
        full.push_reserved(List::from_vec(filled));
    }
}

/// So many blocks without an entry.
fn free_blocks(alloc: Global, count: usize) -> Result<Vec<Vec<Entry>>, WantOfMemory>
    ensures len { IfOk result (λ blocks. vec_len blocks ≡ count) }
    ensures free { IfOk result (λ blocks. AreFree blocks.items) }
{
    let mut blocks = Vec::with_capacity(alloc, count)?;
    while blocks.len() < count {
        blocks.push_reserved(Vec::with_capacity(alloc, BLOCK)?);
    }
    Ok(blocks)
}
