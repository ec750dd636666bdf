//! What an addition was given by the outside, and its answer.

ghost use Rattle.std.specs.Prelude.{◌≡◌, cond};
ghost use Rattle.portal_model.specs.declared.reply.Answer.TheVariants as Answer;
ghost use Rattle.portal_model.specs.declared.reply.Code.TheVariants as Code;
ghost use Rattle.add_serving.specs.Outcomes.{full_call, placed_call, refusal, refused_call, undrawn, unseen_call};

use add_calls::Drawn;
use add_files::AddError;
use document_calls::{ServedCall, fault_if};
use portal_base::files::Look;
use portal_base::list::List;
use portal_base::memory::WantOfMemory;
use portal_base::text::Text;
use portal_model::entry::{Fault, Given};
use portal_model::reply::{Answer, Code};
use std::alloc::Global;

/// The files of a call, added, unless the keeper failed.
#[derive(Drop)]
pub(crate) struct AddedFiles {
    /// What was drawn for them.
    pub drawn: Drawn,
    /// Their identifiers.
    pub ids: List<Text>,
    /// Whether the keeper failed.
    pub failed: bool,
}

/// What the outside gave where no word was drawn.
fn undrawn(alloc: Global, looks: List<Look>, full: bool, fault: Fault) -> Given
    ensures { result ≡ undrawn looks full fault }
{
    Given {
        now: None,
        words: List::new(alloc),
        numbers: List::new(alloc),
        looks,
        listed: None,
        generation: None,
        full,
        fault,
    }
}

/// A call that is refused, with what the tree showed by then.
pub(crate) fn refused(alloc: Global, code: Code, looks: List<Look>) -> ServedCall
    ensures { result ≡ refused_call code looks }
{
    ServedCall {
        given: undrawn(alloc, looks, false, Fault::None),
        answer: Answer::Refused(code),
    }
}

/// A call whose plan is refused.
pub(crate) fn refused_plan(alloc: Global, error: AddError) -> Result<ServedCall, WantOfMemory>
    ensures { result ≡ refusal error }
{
    let code = match error {
        AddError::InvalidArgument => Code::InvalidArgument,
        AddError::NotAllowed => Code::NotAllowed,
        AddError::Memory => return Err(WantOfMemory),
    };
    Ok(refused(alloc, code, List::new(alloc)))
}

/// A call in which the tree failed behind these looks.
pub(crate) fn unseen(alloc: Global, looks: List<Look>) -> ServedCall
    ensures { result ≡ unseen_call looks }
{
    ServedCall {
        given: undrawn(alloc, looks, false, Fault::Tree),
        answer: Answer::Refused(Code::Failed),
    }
}

/// A call that met a limit of documents or of applications.
pub(crate) fn full(alloc: Global, looks: List<Look>) -> ServedCall
    ensures { result ≡ full_call looks }
{
    ServedCall {
        given: undrawn(alloc, looks, true, Fault::None),
        answer: Answer::Refused(Code::LimitsExceeded),
    }
}

/// A call whose files were placed.
pub(crate) fn placed(added: AddedFiles, looks: List<Look>) -> ServedCall
    ensures { result ≡ placed_call added looks }
{
    let AddedFiles { drawn, ids, failed } = added;
    let Drawn { words, numbers, .. } = drawn;
    ServedCall {
        given: Given {
            now: None,
            words,
            numbers,
            looks,
            listed: None,
            generation: None,
            full: false,
            fault: fault_if(failed),
        },
        answer: told(ids, failed),
    }
}

/// The identifiers, unless the keeper failed.
fn told(ids: List<Text>, failed: bool) -> Answer
    ensures { result ≡ cond failed (Answer.Refused Code.Failed) (Answer.Ids ids) }
{
    if failed {
        Answer::Refused(Code::Failed)
    } else {
        Answer::Ids(ids)
    }
}
