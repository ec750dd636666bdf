//! What calls return.

ghost use Rattle.std.specs.Prelude.{◌≡◌};
ghost use Rattle.std.specs.List.{list_all};
ghost use Rattle.bus_answers.specs.Little.{are_few, are_few_ids, is_done, is_little, is_place, is_short, kind_of};

use dbus_calls::method::Method;
use portal_base::text::Text;
use portal_model::reply::Answer;

/// How many files an addition takes at most, each of which has an identifier.
const FILES_LIMIT: usize = 16;

/// How many digits an identifier has.
const DIGITS: usize = 8;

/// What a call returns.
#[derive(Clone, Copy, PartialEq, Eq)]
pub enum ReturnKind {
    /// Nothing.
    Nothing,
    /// A place in the connection's queue.
    Place,
    /// Identifiers of documents.
    Ids,
    /// Data of any length. Such a call changes nothing.
    Data,
}

/// What a call of a method returns.
pub fn kind_of(method: Method) -> ReturnKind
    ensures { result ≡ kind_of method }
{
    match method {
        Method::Present => ReturnKind::Place,
        Method::Add | Method::AddNamed | Method::AddFull | Method::AddNamedFull => ReturnKind::Ids,
        Method::GrantPermissions
        | Method::RevokePermissions
        | Method::DeleteDocument
        | Method::SetEntry
        | Method::DeleteEntry
        | Method::SetValue
        | Method::SetPermission
        | Method::DeletePermission => ReturnKind::Nothing,
        Method::GetMountPoint
        | Method::LookupDocument
        | Method::Info
        | Method::ListDocuments
        | Method::LookupEntry
        | Method::GetPermission
        | Method::ListEntries
        | Method::Get
        | Method::GetAll
        | Method::Ping => ReturnKind::Data,
    }
}

/// Says whether an answer to a call of a method tells little: that it is done, a place, or as many
/// identifiers as an addition has at most.
pub fn is_little(method: Method, answer: &Answer) -> bool
    ensures { result ≡ is_little method answer.now }
{
    match kind_of(method) {
        ReturnKind::Nothing => is_done(answer),
        ReturnKind::Place => is_place(answer),
        ReturnKind::Ids => are_few_ids(answer),
        ReturnKind::Data => false,
    }
}

fn is_done(answer: &Answer) -> bool
    ensures { result ≡ is_done answer.now }
{
    matches!(answer, Answer::Done)
}

fn is_place(answer: &Answer) -> bool
    ensures { result ≡ is_place answer.now }
{
    matches!(answer, Answer::Place(_))
}

fn are_few_ids(answer: &Answer) -> bool
    ensures { result ≡ are_few_ids answer.now }
{
    match answer {
        Answer::Ids(ids) => are_few(ids.as_slice()),
        _ => false,
    }
}

fn are_few(ids: &[Text]) -> bool
    ensures { result ≡ are_few ids.now }
{
    ids.len() <= FILES_LIMIT && are_short(ids)
}

fn are_short(ids: &[Text]) -> bool
    ensures { result ≡ list_all is_short ids.now }
{
    ids.iter().all(|id| is_short(id))
}

fn is_short(id: &Text) -> bool
    ensures { result ≡ is_short id.now }
{
    id.len() <= DIGITS
}
