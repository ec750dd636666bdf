//! The numbers of the documents in which each application has a right.

ghost use Rattle.std.specs.Prelude.{◌≡◌, ℕ, ◌==◌, List, map, cond, true, false, IfOk, OnOk, OnErr, IsTrue};
ghost use Rattle.std.specs.BTreeSet.{contains, IsOrdered};
ghost use Rattle.std.specs.List.{list_any};
ghost use Rattle.std.specs.Ordering.{nat_cmp};
ghost use Rattle.portal_model.specs.Opening.{id_of};
ghost use Rattle.portal_model.specs.declared.state.Triple.{Triple};
ghost use Rattle.document_records.specs.GrantIndex.{AreByApp, FindsSame, IsSetTo, documents_of, is_found, is_this};

use crate::grants::Grant;
use portal_base::list::List;
use portal_base::memory::WantOfMemory;
use portal_base::names::{AppId, DocId};
use std::alloc::Global;
use std::collections::{BTreeMap, BTreeSet};

/// The numbers of the documents in which each application has a right, by the
/// bytes of its name. An application that has none takes no memory.
pub(crate) type NumbersByApp = BTreeMap<Vec<u8>, BTreeSet<u32>>;

/// The documents in which an application has a right, by identifier.
pub(crate) fn documents_of(
    alloc: Global,
    by_app: &NumbersByApp,
    app: &AppId,
) -> Result<List<DocId>, WantOfMemory>
    ensures { IfOk result (λ ids. (rights : List Triple) → AreByApp rights by_app.now
        → ids ≡ documents_of rights app.now) }
{
    match by_app.get(app.as_bytes()) {
        Some(numbers) => ids(alloc, numbers),
        None => Ok(List::new(alloc)),
    }
}

/// The identifiers of numbers, in their order.
fn ids(alloc: Global, numbers: &BTreeSet<u32>) -> Result<List<DocId>, WantOfMemory>
    ensures ids { IfOk result (λ ids. ids ≡ map id_of numbers.now.keys) }
    ensures order { IsOrdered nat_cmp numbers.now }
{
    let ids = numbers
        .iter()
        .map(|number| DocId { number: *number })
        .collect(alloc)?;
    Ok(List::from_vec(ids))
}

/// Adds the number of a document to those of an application.
pub(crate) fn add_number(
    alloc: Global,
    by_app: &mut NumbersByApp,
    app: &AppId,
    id: DocId,
) -> Result<(), WantOfMemory>
    ensures ok { OnOk result (IsSetTo true app.now id.number by_app.old by_app.new) }
    ensures err { OnErr result (FindsSame by_app.old by_app.new) }
{
    if let Some(numbers) = by_app.get_mut(app.as_bytes()) {
        return put(numbers, id.number);
    }
    let name = Vec::from_slice(alloc, app.as_bytes())?;
    let mut numbers = BTreeSet::new(alloc);
    put(&mut numbers, id.number)?;
    by_app.insert(name, numbers)?;
    Ok(())
}

/// Adds a number to others.
fn put(numbers: &mut BTreeSet<u32>, number: u32) -> Result<(), WantOfMemory>
    ensures ok { OnOk result ((n : ℕ) → contains nat_cmp numbers.new n
        ≡ cond (number == n) true (contains nat_cmp numbers.old n)) }
    ensures err { OnErr result ((n : ℕ) →
        contains nat_cmp numbers.new n ≡ contains nat_cmp numbers.old n) }
{
    numbers.insert(number)?;
    Ok(())
}

/// Takes the number of a document out of those of an application.
pub(crate) fn remove_number(by_app: &mut NumbersByApp, app: &AppId, id: DocId)
    ensures { IsSetTo false app.now id.number by_app.old by_app.new }
{
    if leaves_none(by_app, app, id) {
        by_app.remove(app.as_bytes());
    }
}

/// Takes the number of a document out of those of an application, and says
/// whether none is left.
fn leaves_none(by_app: &mut NumbersByApp, app: &AppId, id: DocId) -> bool
    ensures set { IsSetTo false app.now id.number by_app.old by_app.new }
    ensures none { IsTrue result → (n : ℕ) → is_found by_app.new app.now n ≡ false }
{
    match by_app.get_mut(app.as_bytes()) {
        Some(numbers) => {
            numbers.remove(&id.number);
            numbers.is_empty()
        }
        None => false,
    }
}

/// Takes the number of a document out of those of each application that has a
/// grant.
pub(crate) fn remove_numbers(by_app: &mut NumbersByApp, grants: &[Grant], id: DocId)
    ensures { (other : List ℕ) (n : ℕ) → is_found by_app.new other n
        ≡ cond (list_any (λ g. is_this g.app id.number other n) grants.now) false
        (is_found by_app.old other n) }
{
    for grant in grants {
        remove_number(by_app, &grant.app, id);
    }
}
