//! The names in a folder.

ghost use Rattle.std.specs.Prelude.{◌≡◌, [], IfOk, OnOk, OnErr};
ghost use Rattle.portal_base.specs.FolderNames.{AreInOrder, first_part, put_name};

use portal_base::files::ChildName;
use portal_base::list::{ByteList, List};
use portal_base::memory::WantOfMemory;
use std::alloc::Global;
use std::cmp::Ordering;
use std::collections::BTreeMap;
use std::marker::Model;

/// A name, which is ordered byte by byte.
#[derive(Drop)]
struct Name {
    text: ByteList,
}

impl Model for Name {
    ghost use Rattle.std.specs.Prelude.{List, ℕ};

    ghost Value = { List ℕ };

    ghost view = { λ n. n.text };
}

impl PartialEq for Name {
    ghost use Rattle.std.specs.Prelude.{nat_eq};
    ghost use Rattle.std.specs.Cmp.Lexicographic.{pointwise};
    ghost use Rattle.std.proofs.Common.{rules};
    ghost use Rattle.std.specs.Cmp.Rules.{comparing};

    ghost eq = { pointwise nat_eq };

    ghost laws = { Prim.search (comparing, rules) };

    fn eq(&self, other: &Name) -> bool {
        self.text.as_slice() == other.text.as_slice()
    }
}

impl Eq for Name {
    ghost use Rattle.std.proofs.Common.{rules};
    ghost use Rattle.std.specs.Cmp.Rules.{comparing};

    ghost laws = { Prim.search (comparing, rules) };
}

impl PartialOrd for Name {
    ghost use Rattle.std.specs.Prelude.{Some, refl};
    ghost use Rattle.std.specs.Cmp.{partial_order_from_agreeing_total};
    ghost use Rattle.portal_base.specs.NameOrder.{name_order};
    ghost use Rattle.host_tree.specs.NameOrders.{name_order_total, name_order_ties};

    ghost partial_cmp = { λ a b. Some (name_order a b) };

    ghost laws = { partial_order_from_agreeing_total name_order name_order_total
        (λ a b. refl) name_order_ties };

    fn partial_cmp(&self, other: &Name) -> Option<Ordering> {
        Some(self.cmp(other))
    }
}

impl Ord for Name {
    ghost use Rattle.std.specs.Prelude.{refl};
    ghost use Rattle.portal_base.specs.NameOrder.{name_order};
    ghost use Rattle.host_tree.specs.NameOrders.{name_order_total, name_order_ties};

    ghost cmp = { name_order };

    ghost total = { name_order_total };

    ghost matches_partial_cmp = { λ a b. refl };

    ghost matches_eq = { name_order_ties };

    fn cmp(&self, other: &Name) -> Ordering {
        self.text.as_slice().cmp(&other.text.as_slice())
    }
}

/// The names in a folder as they are found, which contracts see as a list in byte
/// order, each name once.
#[derive(Drop)]
pub struct FolderNames {
    names: BTreeMap<Name, bool>,
}

impl Model for FolderNames {
    ghost use Rattle.std.specs.Prelude.{List};
    ghost use Rattle.portal_base.specs.declared.files.ChildName.{ChildName};
    ghost use Rattle.host_tree.specs.Children.{children_of};

    ghost Value = { List ChildName };

    ghost view = { λ a. children_of a.names.entries };
}

impl FolderNames {
    /// None yet.
    pub fn new(alloc: Global) -> FolderNames
        ensures { result ≡ [] }
    {
        FolderNames {
            names: BTreeMap::new(alloc),
        }
    }

    /// Puts a name among the others, or changes nothing.
    pub fn put(&mut self, alloc: Global, name: &[u8], folder: bool) -> Result<(), WantOfMemory>
        ensures ok { OnOk result
            (self.new ≡ put_name (record { name = name.now; folder = folder }) self.old) }
        ensures err { OnErr result (self.new ≡ self.old) }
    {
        let text = List::copied(alloc, name)?;
        self.names.insert(Name { text }, folder)?;
        Ok(())
    }

    /// Puts the first part of what stands behind the path of a folder, or changes
    /// nothing.
    pub(crate) fn put_first_part(&mut self, alloc: Global, rest: &[u8]) -> Result<(), WantOfMemory>
        ensures ok { OnOk result (self.new ≡ put_name (first_part rest.now) self.old) }
        ensures err { OnErr result (self.new ≡ self.old) }
    {
        let part = first_part_of(rest);
        self.put(alloc, part.0, part.1)
    }

    /// The names, in byte order.
    pub fn into_list(self, alloc: Global) -> Result<List<ChildName>, WantOfMemory>
        ensures names { IfOk result (λ names. names ≡ self) }
        ensures order { IfOk result AreInOrder }
    {
        let FolderNames { names } = self;
        are_in_order(&names);
        let list = children(alloc, names)?;
        Ok(list)
    }
}

ghost use Rattle.std.specs.List.{position};
ghost use Rattle.portal_base.specs.Names.{is_slash};
ghost use Rattle.host_tree.specs.Children.{children_of};

/// The first part of a text, which a slash or its end ends, and whether a slash does.
fn first_part_of(rest: &[u8]) -> (&[u8], bool)
    ensures { first_part rest.now ≡ record { name = result.0.now; folder = result.1 } }
{
    match slash_of(rest) {
        Some(end) => (rest.split_at(end).0, true),
        None => (rest, false),
    }
}

/// Where the first slash stands.
fn slash_of(text: &[u8]) -> Option<usize>
    ensures { result ≡ position is_slash text.now }
{
    text.iter().position(|byte| *byte == b'/')
}

/// What is true at each moment: a map's names stand in its order.
fn are_in_order(names: &BTreeMap<Name, bool>)
    ensures { AreInOrder (children_of names.now.entries) }
{
    let _ = names.iter();
}

/// The names of a map, in its order.
fn children(alloc: Global, names: BTreeMap<Name, bool>) -> Result<List<ChildName>, WantOfMemory>
    ensures { IfOk result (λ list. list ≡ children_of names.entries) }
{
    let mut list = List::new(alloc);
    for (Name { text }, folder) in names {
        list.push(ChildName { name: text, folder })?;
    }
    Ok(list)
}
