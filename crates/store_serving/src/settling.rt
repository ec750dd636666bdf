//! What the tables made of a call, told to the host's connections and kept.

ghost use Rattle.std.specs.Prelude.{◌≡◌, false, IfOk, IfSome, MatchBool, None, Ok, OnErr, Option, cond};
ghost use Rattle.change_signals.specs.Unsent.{AtEach, IsSame, told};
ghost use Rattle.document_calls.specs.KeeperCalls.{AppliedIf, KeeperStays};
ghost use Rattle.document_calls.specs.Serves.{given_with};
ghost use Rattle.permission_table.specs.Tables.{IsFormer, put_back, with_content};
ghost use Rattle.portal_model.specs.Store.{Entries, change_of, entry_of, record_of, without_entry};
ghost use Rattle.portal_model.specs.Valid.{entry_told};
ghost use Rattle.portal_model.specs.declared.entry.Fault.TheVariants as Fault;
ghost use Rattle.portal_model.specs.declared.records.RecordChange.{RecordChange};
ghost use Rattle.portal_model.specs.declared.reply.Answer.TheVariants as Answer;
ghost use Rattle.portal_model.specs.declared.store.StoreCall.{StoreCall};
ghost use Rattle.store_serving.specs.Records.{SetsRecord, former_record};
ghost use Rattle.store_serving.specs.Serving.{IsMadeOf, StoreServed, ToldIfThere, answer_of, entry_with, read_call, refused_call};

use crate::records::record_change;
use change_signals::Outboxes;
use document_calls::{ServedCall, answered, done, keep_change};
use permission_table::{Change, StoreAnswer, StoreError, TableEntry, Tables};
use portal_base::memory::{Replica, WantOfMemory};
use portal_base::text::Text;
use portal_model::records::RecordChange;
use portal_model::reply::{Answer, Code};
use record_keeper::Keeper;
use std::alloc::Global;

/// What a call is answered that reads the tables.
pub(crate) fn read(
    alloc: Global,
    answer: Result<StoreAnswer, StoreError>,
) -> Result<ServedCall, WantOfMemory>
    ensures { result ≡ read_call answer }
{
    match answer {
        Ok(answer) => Ok(answered(alloc, answer_of(answer))),
        Err(error) => refused(alloc, error),
    }
}

/// What is answered where the tables answer so.
fn answer_of(answer: StoreAnswer) -> Answer
    ensures { result ≡ answer_of answer }
{
    match answer {
        StoreAnswer::Done(_) => Answer::Done,
        StoreAnswer::Kept => Answer::Done,
        StoreAnswer::Entry { rows, datum } => Answer::Entry { rows, datum },
        StoreAnswer::Names(names) => Answer::Names(names),
    }
}

/// A call that the tables refuse.
fn refused(alloc: Global, error: StoreError) -> Result<ServedCall, WantOfMemory>
    ensures { result ≡ refused_call error }
{
    let code = match error {
        StoreError::NotFound => Code::NotFound,
        StoreError::TooLong => Code::LimitsExceeded,
        StoreError::Memory => return Err(WantOfMemory),
    };
    Ok(answered(alloc, Answer::Refused(code)))
}

/// Tells and keeps what the tables made of a call that sets an entry, or takes a
/// row out of one. The entry had this content before the call, or wasn't there.
///
/// Where the keeper fails, or there is no memory, it is as before the call.
pub(crate) fn settle<K: Keeper>(
    alloc: Global,
    tables: &mut Tables,
    outboxes: &mut Outboxes,
    keeper: &mut K,
    table: &Text,
    id: &Text,
    former: Option<TableEntry>,
    answer: Result<StoreAnswer, StoreError>,
) -> Result<ServedCall, WantOfMemory>
    requires { IfSome former (IsFormer table.now id.now) }
    ensures ok { IfOk result (λ served. (call : StoreCall) (before : Entries)
        → IsMadeOf call before tables.old table.now id.now former answer
        → StoreServed call before outboxes.old (K.is keeper.old) tables.new outboxes.new
        (K.is keeper.new) served) }
    ensures tables { OnErr result ((call : StoreCall) (before : Entries)
        → IsMadeOf call before tables.old table.now id.now former answer
        → tables.new ≡ before) }
    ensures outboxes { OnErr result (IsSame outboxes.old outboxes.new) }
    ensures keeper { OnErr result (KeeperStays (K.is keeper.old) (K.is keeper.new)) }
{
    match answer {
        Ok(answer) => settle_answer(alloc, tables, outboxes, keeper, table, id, former, answer),
        Err(error) => refused(alloc, error),
    }
}

/// The same of a call that the tables answered.
fn settle_answer<K: Keeper>(
    alloc: Global,
    tables: &mut Tables,
    outboxes: &mut Outboxes,
    keeper: &mut K,
    table: &Text,
    id: &Text,
    former: Option<TableEntry>,
    answer: StoreAnswer,
) -> Result<ServedCall, WantOfMemory>
    requires { IfSome former (IsFormer table.now id.now) }
    ensures ok { IfOk result (λ served. (call : StoreCall) (before : Entries)
        → IsMadeOf call before tables.old table.now id.now former (Ok answer)
        → StoreServed call before outboxes.old (K.is keeper.old) tables.new outboxes.new
        (K.is keeper.new) served) }
    ensures tables { OnErr result ((call : StoreCall) (before : Entries)
        → IsMadeOf call before tables.old table.now id.now former (Ok answer)
        → tables.new ≡ before) }
    ensures outboxes { OnErr result (IsSame outboxes.old outboxes.new) }
    ensures keeper { OnErr result (KeeperStays (K.is keeper.old) (K.is keeper.new)) }
{
    match answer {
        StoreAnswer::Done(change) => {
            match keep_entry(alloc, tables, outboxes, keeper, table, id, former, change) {
                Ok(failed) => Ok(done(alloc, failed)),
                Err(error) => Err(error),
            }
        }
        StoreAnswer::Kept => tell_as_it_stands(alloc, outboxes, table, id, former),
        StoreAnswer::Entry { rows, datum } => Ok(answered(alloc, Answer::Entry { rows, datum })),
        StoreAnswer::Names(names) => Ok(answered(alloc, Answer::Names(names))),
    }
}

/// Tells and keeps that an entry is so now, and says whether the keeper failed.
/// Where it did, or there is no memory, the entry has its former content again.
fn keep_entry<K: Keeper>(
    alloc: Global,
    tables: &mut Tables,
    outboxes: &mut Outboxes,
    keeper: &mut K,
    table: &Text,
    id: &Text,
    former: Option<TableEntry>,
    change: Change,
) -> Result<bool, WantOfMemory>
    requires { IfSome former (IsFormer table.now id.now) }
    ensures kept { IfOk result (λ failed. (made : Option RecordChange)
        × SetsRecord (former_record change.table change.id former) (record_of (entry_told change))
        made
        × AppliedIf made (K.is keeper.old) failed (K.is keeper.new)) }
    ensures left { IfOk result (λ failed. tables.new
        ≡ cond failed (put_back table.now id.now former tables.old) tables.old) }
    ensures told { IfOk result (λ failed. MatchBool failed (IsSame outboxes.old outboxes.new)
        (AtEach (told change) outboxes.old outboxes.new)) }
    ensures tables { OnErr result (tables.new ≡ put_back table.now id.now former tables.old) }
    ensures outboxes { OnErr result (IsSame outboxes.old outboxes.new) }
    ensures keeper { OnErr result (KeeperStays (K.is keeper.old) (K.is keeper.new)) }
{
    // The tables were changed already, and the entry gets its former content where this fails.
    match tell_and_keep(alloc, outboxes, keeper, &former, change) {
        Ok(false) => Ok(false),
        Ok(true) => {
            tables.put_back(table, id, former);
            Ok(true)
        }
        Err(error) => {
            tables.put_back(table, id, former);
            Err(error)
        }
    }
}

/// Tells and keeps that an entry is so now which had this content, or wasn't
/// there, and says whether the keeper failed.
fn tell_and_keep<K: Keeper>(
    alloc: Global,
    outboxes: &mut Outboxes,
    keeper: &mut K,
    former: &Option<TableEntry>,
    change: Change,
) -> Result<bool, WantOfMemory>
    ensures kept { IfOk result (λ failed. (made : Option RecordChange)
        × SetsRecord (former_record change.table change.id former.now)
        (record_of (entry_told change)) made
        × AppliedIf made (K.is keeper.old) failed (K.is keeper.new)) }
    ensures told { IfOk result (λ failed. MatchBool failed (IsSame outboxes.old outboxes.new)
        (AtEach (told change) outboxes.old outboxes.new)) }
    ensures outboxes { OnErr result (IsSame outboxes.old outboxes.new) }
    ensures keeper { OnErr result (KeeperStays (K.is keeper.old) (K.is keeper.new)) }
{
    let made = record_change(alloc, former, &change)?;
    keep_told(alloc, outboxes, keeper, made, change)
}

/// Tells a change, and asks the keeper once for that of the records, where there
/// is one; says whether it failed. Where it did, or there is no memory, nothing
/// is told.
pub(crate) fn keep_told<K: Keeper>(
    alloc: Global,
    outboxes: &mut Outboxes,
    keeper: &mut K,
    made: Option<RecordChange>,
    change: Change,
) -> Result<bool, WantOfMemory>
    ensures kept { IfOk result (λ failed. AppliedIf made (K.is keeper.old) failed
        (K.is keeper.new)) }
    ensures told { IfOk result (λ failed. MatchBool failed (IsSame outboxes.old outboxes.new)
        (AtEach (told change) outboxes.old outboxes.new)) }
    ensures outboxes { OnErr result (IsSame outboxes.old outboxes.new) }
    ensures keeper { OnErr result (KeeperStays (K.is keeper.old) (K.is keeper.new)) }
{
    // What is kept is kept last: the keeper is asked once, and nothing may want memory behind it.
    // So the signal is told first, and taken back where the keeper fails.
    outboxes.post(change)?;
    match keep_change(alloc, keeper, made) {
        Ok(false) => Ok(false),
        Ok(true) => {
            outboxes.unpost();
            Ok(true)
        }
        Err(error) => {
            outboxes.unpost();
            Err(error)
        }
    }
}

/// Tells an entry that a call left as it stands.
fn tell_as_it_stands(
    alloc: Global,
    outboxes: &mut Outboxes,
    table: &Text,
    id: &Text,
    former: Option<TableEntry>,
) -> Result<ServedCall, WantOfMemory>
    ensures served { IfOk result (λ served. served
        ≡ record { given = given_with false Fault.None; answer = Answer.Done }) }
    ensures told { IfOk result (λ served.
        ToldIfThere (entry_with table.now id.now former) outboxes.old outboxes.new) }
    ensures err { OnErr result (IsSame outboxes.old outboxes.new) }
{
    match former {
        None => Ok(answered(alloc, Answer::Done)),
        Some(former) => {
            let change = change_of(alloc, false, table, id, former)?;
            outboxes.post(change)?;
            Ok(answered(alloc, Answer::Done))
        }
    }
}

/// What the signal tells of the entry with this content.
pub(crate) fn change_of(
    alloc: Global,
    deleted: bool,
    table: &Text,
    id: &Text,
    content: TableEntry,
) -> Result<Change, WantOfMemory>
    ensures { IfOk result (λ change. change
        ≡ change_of deleted (with_content table.now id.now content)) }
{
    let table = table.replica(alloc)?;
    let id = id.replica(alloc)?;
    let TableEntry { rows, datum } = content;
    Ok(Change {
        table,
        id,
        deleted,
        datum,
        rows,
    })
}
