//! The last generations that were taken, by path.

ghost use Rattle.std.specs.Prelude.{◌≡◌, ◌≤◌, ◌<◌, [], ◌∷◌, ◌++◌, length, IsOk, OnOk};
ghost use Rattle.save_files.specs.Taken.{last_taken, taken_as, with_taken};

use portal_base::list::List;
use portal_base::memory::WantOfMemory;
use portal_model::opening::TakenGeneration;
use std::alloc::Global;
use std::marker::Model;
use std::mem;

/// The most bytes of a path on the host.
const MOST_BYTES: usize = 4_095;

/// The last generation of each path that has had one, in the order in which the first was
/// taken.
#[derive(Drop)]
pub(crate) struct TakenList {
    alloc: Global,
    // Paths that files were renamed onto are few beside all that a portal serves, and are asked
    // for where a file is made, so they are searched.
    taken: Vec<TakenGeneration>,
    // Empty. A path is copied here, for which there is room before a file is made.
    spare: Vec<u8>,
}

impl Model for TakenList {
    ghost use Rattle.std.specs.Prelude.{◌≡◌, ◌-◌, [], cond, nat_le, vec_capacity, vec_len};
    ghost use Rattle.save_files.specs.Taken.{Taken};
    ghost use Rattle.portal_base.specs.Names.{path_limit};

    ghost Value = { Taken };

    ghost view = { λ t. record {
      taken = t.taken.items;
      room = cond (nat_le path_limit (vec_capacity t.spare))
          (vec_capacity t.taken - vec_len t.taken) 0;
    } };

    ghost invariant = { λ t. t.spare.items ≡ [] };
}

impl TakenList {
    /// None yet.
    pub(crate) fn new(alloc: Global) -> TakenList
        ensures { result.taken ≡ [] }
    {
        TakenList {
            alloc,
            taken: Vec::new(alloc),
            spare: Vec::new(alloc),
        }
    }

    /// These.
    pub(crate) fn over(alloc: Global, taken: List<TakenGeneration>) -> TakenList
        ensures { result.taken ≡ taken }
    {
        TakenList {
            alloc,
            taken: taken.into_vec(),
            spare: Vec::new(alloc),
        }
    }

    /// All of them.
    pub(crate) fn as_slice(&self) -> &[TakenGeneration]
        ensures { result.now ≡ self.now.taken }
    {
        self.taken.as_slice()
    }

    /// The last generation that was taken for a path, or 0.
    pub(crate) fn last(&self, path: &[u8]) -> u64
        ensures { result ≡ last_taken self.now.taken path.now }
    {
        match find_of(self.taken.as_slice(), path) {
            Some(t) => t.last,
            None => 0,
        }
    }

    /// Takes room for one more path.
    pub(crate) fn reserve(&mut self) -> Result<(), WantOfMemory>
        ensures ok { OnOk result (0 < self.new.room) }
        ensures taken { self.new.taken ≡ self.old.taken }
        ensures room { self.old.room ≤ self.new.room }
        ensures reserved { 0 < self.old.room → IsOk result }
    {
        self.taken.reserve(1)?;
        self.spare.reserve(MOST_BYTES)?;
        Ok(())
    }

    /// Sets the last generation of a path, for which there is room.
    pub(crate) fn take(&mut self, path: &[u8], generation: u64)
        requires room { 0 < self.old.room }
        requires path { length path.now ≤ 4095 }
        ensures { self.new.taken ≡ with_taken path.now generation self.old.taken }
    {
        match place_of(self.taken.as_slice(), path) {
            Some(place) => {
                let taken = &mut self.taken[place];
                taken.last = generation;
            }
            None => self.push(path, generation),
        }
    }

    /// Puts a path behind the others, for which there is room.
    fn push(&mut self, path: &[u8], generation: u64)
        requires room { 0 < self.old.room }
        requires path { length path.now ≤ 4095 }
        ensures { self.new.taken ≡ self.old.taken ++ taken_as path.now generation ∷ [] }
    {
        let mut copy = mem::replace(&mut self.spare, Vec::new(self.alloc));
        // There is room for it.
        let _ = copy.extend_from_slice(path);
        copy.shrink_to_fit();
        self.taken.push_reserved(TakenGeneration {
            path: List::from_vec(copy),
            last: generation,
        });
    }
}

ghost use Rattle.std.specs.Prelude.{find, option_copied};
ghost use Rattle.std.specs.List.{position};
ghost use Rattle.save_files.specs.Taken.{is_of};

/// The generation of a path.
fn find_of<'a>(taken: &'a [TakenGeneration], path: &[u8]) -> Option<&'a TakenGeneration>
    ensures { option_copied result ≡ find (is_of path.now) taken.now }
{
    taken.iter().find(|t| t.path.as_slice() == path)
}

/// Where the generation of a path stands.
fn place_of(taken: &[TakenGeneration], path: &[u8]) -> Option<usize>
    ensures { result ≡ position (is_of path.now) taken.now }
{
    taken.iter().position(|t| t.path.as_slice() == path)
}
