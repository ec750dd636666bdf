//! The opening state that stands for records.

ghost use Rattle.std.specs.Prelude.{◌≡◌, ◌++◌, ◌∷◌, [], map, true, IfOk, OnOk};
ghost use Rattle.std.specs.List.{All, list_all};
ghost use Rattle.portal_model.specs.Opening.{id_of};
ghost use Rattle.record_keeper.specs.BadRecords.{applications_of};
ghost use Rattle.record_keeper.specs.SoundRecords.{IsSoundDocument, IsValidEntry};
ghost use Rattle.portal_start.specs.Loading.{IsOpening, document_loaded, is_narrow};

use portal_base::limits::Limits;
use portal_base::list::List;
use portal_base::memory::WantOfMemory;
use portal_base::names::{AppId, DocId};
use portal_model::opening::{OpeningDocument, OpeningState};
use portal_model::records::{DocRecord, Records};
use record_keeper::{Named, kept_entries};
use std::alloc::Global;

/// The opening state that stands for records. Its list of files is empty.
pub fn opening_loaded(
    alloc: Global,
    records: Records,
    limits: &Limits,
) -> Result<OpeningState, WantOfMemory>
    requires documents { All IsSoundDocument records.documents }
    requires entries { All IsValidEntry records.entries }
    ensures state { IfOk result (IsOpening limits.now records) }
    ensures narrow { IfOk result (λ opening. list_all is_narrow opening.made ≡ true) }
{
    let made = numbers_of(alloc, records.documents.as_slice())?;
    let applications = names_of(alloc, records.documents.as_slice())?;
    let Records {
        version: _,
        documents,
        entries,
    } = records;
    Ok(OpeningState {
        limits: *limits,
        documents: persistent(alloc, documents)?,
        made,
        applications,
        entries: kept_entries(alloc, entries)?,
        files: List::new(alloc),
        taken: List::new(alloc),
    })
}

/// The numbers of kept documents, which have 32 bits.
fn numbers_of(alloc: Global, items: &[DocRecord]) -> Result<List<DocId>, WantOfMemory>
    ensures numbers { IfOk result (λ numbers. numbers ≡ map (λ d. id_of d.number) items.now) }
    ensures narrow { IfOk result (λ numbers. list_all is_narrow numbers ≡ true) }
{
    let mut numbers = List::new(alloc);
    for item in items {
        add_number(&mut numbers, item)?;
    }
    Ok(numbers)
}

/// Adds the number of a kept document.
fn add_number(numbers: &mut List<DocId>, item: &DocRecord) -> Result<(), WantOfMemory>
    requires { list_all is_narrow numbers.old ≡ true }
    ensures numbers { OnOk result (numbers.new ≡ numbers.old ++ id_of item.now.number ∷ []) }
    ensures narrow { OnOk result (list_all is_narrow numbers.new ≡ true) }
{
    let number = number_of(item);
    numbers.push(DocId { number })?;
    Ok(())
}

/// The number of a kept document.
fn number_of(item: &DocRecord) -> u32
    ensures { result ≡ item.now.number }
{
    item.number
}

/// The applications that kept documents give rights to, as they first name
/// them.
fn names_of(alloc: Global, items: &[DocRecord]) -> Result<List<AppId>, WantOfMemory>
    requires { All IsSoundDocument items.now }
    ensures { IfOk result (λ names. names ≡ applications_of items.now) }
{
    let mut named = Named::new(alloc);
    for item in items {
        named.add_granted(alloc, item.grants.as_slice())?;
    }
    Ok(named.into_names())
}

/// Kept documents as documents that persist.
fn persistent(alloc: Global, items: List<DocRecord>) -> Result<List<OpeningDocument>, WantOfMemory>
    ensures { IfOk result (λ documents. documents ≡ map document_loaded items) }
{
    let items = items.into_vec();
    let mut documents = Vec::with_capacity(alloc, items.len())?;
    for kept in items {
        documents.push(OpeningDocument {
            kept,
            persistent: true,
            folder: false,
        })?;
    }
    Ok(List::from_vec(documents))
}
