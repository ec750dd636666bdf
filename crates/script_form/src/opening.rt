//! The state that a script opens with.

ghost use Rattle.std.specs.Prelude.{◌≡◌, ◌++◌, IfOk, OnOk, Some, fold, map};
ghost use Rattle.std.specs.List.{All};
ghost use Rattle.portal_model.specs.Opening.{each, held_items, names_kept, id_of, ValidOpening};
ghost use Rattle.script_lines.specs.Lines.{KeepsRules};
ghost use Rattle.record_keeper.specs.Naming.{also_named};
ghost use Rattle.script_form.specs.Opening.{IsOpening, document_in, documents_of, entry_in, entries_of, file_in, files_of, time_behind as time_after, applications_of, HoldsScripts};
ghost use Rattle.script_form.specs.Order.{IsScript};

use portal_base::limits::Limits;
use portal_base::list::List;
use portal_base::memory::{Replica, WantOfMemory};
use portal_base::names::app_id::AppId;
use portal_base::names::doc_id::DocId;
use portal_model::opening::{FileItem, OpeningDocument, OpeningState};
use portal_model::records::{DocRecord, EntryRecord};
use record_keeper::{Named, kept_entries};
use script_lines::script::{Script, ScriptLine};
use std::alloc::Global;

/// The state that a script opens with: its documents, entries and files, each
/// file with the moment that was in force at its line, and the applications
/// that have rights, numbered as they are first named.
///
/// It is a valid state where the limits hold whatever a script keeps: at
/// least 65,536 live and made documents.
pub fn opening_of(
    alloc: Global,
    script: &Script,
    limits: Limits,
) -> Result<OpeningState, WantOfMemory>
    requires { IsScript script.now.lines }
    ensures state { IfOk result (IsOpening limits script.now.lines) }
    ensures valid { HoldsScripts limits
        → IfOk result (λ state. ValidOpening (Some (held_items state.files)) state) }
{
    state_of(alloc, script, limits)
}

/// The state that a script opens with.
fn state_of(alloc: Global, script: &Script, limits: Limits) -> Result<OpeningState, WantOfMemory>
    requires { IsScript script.now.lines }
    ensures { IfOk result (IsOpening limits script.now.lines) }
{
    let lines = script.lines.as_slice();
    let documents = documents_in(alloc, lines)?;
    let made = numbers_of(alloc, documents.as_slice())?;
    let applications = applications_in(alloc, lines)?;
    let kept = entries_in(alloc, lines)?;
    let entries = kept_entries(alloc, kept)?;
    let files = files_in(alloc, lines)?;
    Ok(OpeningState {
        limits,
        documents,
        made,
        applications,
        entries,
        files,
        taken: List::new(alloc),
    })
}

/// The documents that lines keep.
pub(crate) fn documents_in(
    alloc: Global,
    lines: &[ScriptLine],
) -> Result<List<OpeningDocument>, WantOfMemory>
    ensures { IfOk result (λ documents. documents ≡ documents_of lines.now) }
{
    let mut documents = List::new(alloc);
    for line in lines {
        add_document(alloc, &mut documents, line)?;
    }
    Ok(documents)
}

/// Adds the document that a line keeps.
fn add_document(
    alloc: Global,
    documents: &mut List<OpeningDocument>,
    line: &ScriptLine,
) -> Result<(), WantOfMemory>
    ensures { OnOk result (documents.new ≡ documents.old ++ document_in line.now) }
{
    match line {
        ScriptLine::Doc {
            id,
            reusable,
            strict,
            path,
            grants,
        } => documents.push(OpeningDocument {
            kept: DocRecord {
                number: id.number,
                path: List::copied(alloc, path.as_bytes())?,
                reusable: *reusable,
                strict: *strict,
                grants: grants.replica(alloc)?,
            },
            persistent: true,
            folder: false,
        }),
        _ => Ok(()),
    }
}

/// The numbers of documents.
fn numbers_of(alloc: Global, documents: &[OpeningDocument]) -> Result<List<DocId>, WantOfMemory>
    ensures { IfOk result (λ numbers. numbers ≡ map (λ d. id_of d.kept.number) documents.now) }
{
    let mut numbers = List::new(alloc);
    for document in documents {
        numbers.push(DocId {
            number: document.kept.number,
        })?;
    }
    Ok(numbers)
}

/// The records of the entries that lines keep.
pub(crate) fn entries_in(
    alloc: Global,
    lines: &[ScriptLine],
) -> Result<List<EntryRecord>, WantOfMemory>
    ensures { IfOk result (λ entries. entries ≡ entries_of lines.now) }
{
    let mut entries = List::new(alloc);
    for line in lines {
        add_entry(alloc, &mut entries, line)?;
    }
    Ok(entries)
}

/// Adds the record of the entry that a line keeps.
fn add_entry(
    alloc: Global,
    entries: &mut List<EntryRecord>,
    line: &ScriptLine,
) -> Result<(), WantOfMemory>
    ensures { OnOk result (entries.new ≡ entries.old ++ entry_in line.now) }
{
    match line {
        ScriptLine::Entry(entry) => entries.push(entry.replica(alloc)?),
        _ => Ok(()),
    }
}

/// The files that lines add.
fn files_in(alloc: Global, lines: &[ScriptLine]) -> Result<List<FileItem>, WantOfMemory>
    ensures { IfOk result (λ files. files ≡ files_of lines.now) }
{
    let mut files = List::new(alloc);
    let mut time = 0;
    for line in lines {
        add_file(alloc, &mut files, line, time)?;
        time = time_behind(line, time);
    }
    Ok(files)
}

/// The time behind a line, where it is this ahead of it.
pub(crate) fn time_behind(line: &ScriptLine, time: u64) -> u64
    ensures { result ≡ time_after time line.now }
{
    match line {
        // It gives the files behind it their moment, and sets the clock that the requests behind
        // it read.
        ScriptLine::Now { moment } => *moment,
        _ => time,
    }
}

/// Adds the file of a line, with the moment now in force.
fn add_file(
    alloc: Global,
    files: &mut List<FileItem>,
    line: &ScriptLine,
    time: u64,
) -> Result<(), WantOfMemory>
    ensures { OnOk result (files.new ≡ files.old ++ file_in time line.now) }
{
    match line {
        ScriptLine::File { path, content } => files.push(FileItem {
            path: List::copied(alloc, path.as_bytes())?,
            content: content.replica(alloc)?,
            moment: time,
            generation: 0,
            present: true,
        }),
        _ => Ok(()),
    }
}

/// The applications that lines give rights to, as they first name them.
fn applications_in(alloc: Global, lines: &[ScriptLine]) -> Result<List<AppId>, WantOfMemory>
    requires { All KeepsRules lines.now }
    ensures { IfOk result (λ named. named ≡ applications_of lines.now) }
{
    // Their number needs no look: a line of a script never names more than may be numbered.
    let mut named = Named::new(alloc);
    for line in lines {
        add_names(alloc, &mut named, line)?;
    }
    Ok(named.into_names())
}

/// Adds the names in a line that are new.
fn add_names(alloc: Global, named: &mut Named, line: &ScriptLine) -> Result<(), WantOfMemory>
    requires { KeepsRules line.now }
    ensures { OnOk result (named.new ≡ fold also_named named.old
        (each names_kept (document_in line.now))) }
{
    let ScriptLine::Doc { grants, .. } = line else {
        return Ok(());
    };
    named.add_granted(alloc, grants.as_slice())
}
