//! Sets of texts, in the order of their bytes.

ghost use Rattle.std.specs.Prelude.{◌≡◌, [], false, ◌||◌, ℕ, Bool, List, IfOk, OnOk, OnErr};
ghost use Rattle.std.specs.List.{list_any};
ghost use Rattle.portal_base.specs.Names.{is_same};

use portal_base::list::{ByteList, List};
use portal_base::memory::WantOfMemory;
use std::alloc::Global;
use std::cmp::Ordering;
use std::collections::BTreeSet;
use std::marker::Model;

/// A text as a member of a set, which contracts see as its bytes.
#[derive(Debug, Drop)]
pub struct Name {
    text: ByteList,
}

impl Model for Name {
    ghost use Rattle.std.specs.Prelude.{List, ℕ};

    ghost Value = { List ℕ };

    ghost view = { λ a. a.text };
}

impl Name {
    /// A copy of a text.
    pub fn copied(alloc: Global, text: &[u8]) -> Result<Name, WantOfMemory>
        ensures { IfOk result (λ name. name ≡ text.now) }
    {
        Ok(Name {
            text: List::copied(alloc, text)?,
        })
    }

    /// The name of these bytes.
    pub fn from_bytes(text: ByteList) -> Name
        ensures { result ≡ text }
    {
        Name { text }
    }

    fn as_bytes(&self) -> &[u8]
        ensures { result.now ≡ self.now }
    {
        self.text.as_slice()
    }
}

impl PartialEq for Name {
    ghost use Rattle.std.specs.Prelude.{nat_eq};
    ghost use Rattle.std.specs.Cmp.Lexicographic.{pointwise};
    ghost use Rattle.std.proofs.Common.{rules};
    ghost use Rattle.std.specs.Cmp.Rules.{comparing};

    ghost eq = { pointwise nat_eq };

    ghost laws = { Prim.search (comparing, rules) };

    fn eq(&self, other: &Name) -> bool {
        self.as_bytes() == other.as_bytes()
    }
}

impl Eq for Name {
    ghost use Rattle.std.proofs.Common.{rules};
    ghost use Rattle.std.specs.Cmp.Rules.{comparing};

    ghost laws = { Prim.search (comparing, rules) };
}

/// Names are ordered byte by byte.
impl PartialOrd for Name {
    ghost use Rattle.std.specs.Prelude.{Some, refl};
    ghost use Rattle.std.specs.Cmp.{partial_order_from_agreeing_total};
    ghost use Rattle.std.specs.Cmp.Lexicographic.{slice_cmp, nat_list_cmp_total};
    ghost use Rattle.std.specs.Ordering.{nat_cmp};
    ghost use Rattle.record_keeper.specs.NameOrder.{byte_order_ties};

    ghost partial_cmp = { λ a b. Some (slice_cmp nat_cmp a b) };

    ghost laws = { partial_order_from_agreeing_total (slice_cmp nat_cmp) nat_list_cmp_total
        (λ a b. refl) byte_order_ties };

    fn partial_cmp(&self, other: &Name) -> Option<Ordering> {
        Some(self.cmp(other))
    }
}

impl Ord for Name {
    ghost use Rattle.std.specs.Prelude.{refl};
    ghost use Rattle.std.specs.Cmp.Lexicographic.{slice_cmp, nat_list_cmp_total};
    ghost use Rattle.std.specs.Ordering.{nat_cmp};
    ghost use Rattle.record_keeper.specs.NameOrder.{byte_order_ties};

    ghost cmp = { slice_cmp nat_cmp };

    ghost total = { nat_list_cmp_total };

    ghost matches_partial_cmp = { λ a b. refl };

    ghost matches_eq = { byte_order_ties };

    fn cmp(&self, other: &Name) -> Ordering {
        self.as_bytes().cmp(other.as_bytes())
    }
}

/// A set of names, which contracts see as the list of them in their order.
#[derive(Drop)]
pub struct NameSet {
    names: BTreeSet<Name>,
}

impl Model for NameSet {
    ghost use Rattle.std.specs.Prelude.{List, ℕ};

    ghost Value = { List (List ℕ) };

    ghost view = { λ a. a.names.keys };
}

impl NameSet {
    /// No names.
    pub fn new(alloc: Global) -> NameSet
        ensures { result ≡ [] }
    {
        NameSet {
            names: BTreeSet::new(alloc),
        }
    }

    /// Whether a name is in the set.
    pub fn has(&self, name: &Name) -> bool
        ensures { result ≡ list_any (is_same name.now) self.now }
    {
        self.names.contains(name)
    }

    /// Puts a name into the set, in which it wasn't.
    pub fn add(&mut self, name: Name) -> Result<(), WantOfMemory>
        requires { list_any (is_same name) self.old ≡ false }
        ensures ok { OnOk result ((test : List ℕ → Bool)
            → list_any test self.new ≡ (test name || list_any test self.old)) }
        ensures err { OnErr result (self.new ≡ self.old) }
    {
        self.names.insert(name)?;
        Ok(())
    }
}
