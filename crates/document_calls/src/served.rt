//! What a served request was given, and what it was answered.

ghost use Rattle.std.specs.Prelude.{◌≡◌, false};
ghost use Rattle.document_calls.specs.Serves.{given_with};
ghost use Rattle.document_calls.specs.Changes.{done_with, full_call, refusal};
ghost use Rattle.portal_model.specs.declared.entry.Fault.TheVariants as Fault;

use crate::keeping::fault_if;
use grant_revoke::RightsError;
use portal_base::list::List;
use portal_base::memory::WantOfMemory;
use portal_model::entry::{Fault, Given};
use portal_model::reply::{Answer, Code};
use std::alloc::Global;

/// A request that was served.
#[derive(Drop)]
pub struct ServedCall {
    /// What the outside gave.
    pub given: Given,
    /// The answer.
    pub answer: Answer,
}

/// What the outside gave to a request that drew no word and asked the tree for
/// nothing.
pub fn outside(alloc: Global, full: bool, fault: Fault) -> Given
    ensures { result ≡ given_with full fault }
{
    Given {
        now: None,
        words: List::new(alloc),
        numbers: List::new(alloc),
        looks: List::new(alloc),
        listed: None,
        generation: None,
        full,
        fault,
    }
}

/// A request that met no limit and no fault, and was answered.
pub fn answered(alloc: Global, answer: Answer) -> ServedCall
    ensures { result ≡ record { given = given_with false Fault.None; answer = answer } }
{
    ServedCall {
        given: outside(alloc, false, Fault::None),
        answer,
    }
}

/// A change that was to be made, of which this says whether the keeper failed.
pub fn done(alloc: Global, failed: bool) -> ServedCall
    ensures { result ≡ done_with failed }
{
    ServedCall {
        given: outside(alloc, false, fault_if(failed)),
        answer: if failed {
            Answer::Refused(Code::Failed)
        } else {
            Answer::Done
        },
    }
}

/// A request that met a limit of documents or of applications.
pub fn full(alloc: Global) -> ServedCall
    ensures { result ≡ full_call }
{
    ServedCall {
        given: outside(alloc, true, Fault::None),
        answer: Answer::Refused(Code::LimitsExceeded),
    }
}

/// A request that is refused for what its caller reaches or may do.
pub(crate) fn refused(alloc: Global, error: RightsError) -> Result<ServedCall, WantOfMemory>
    ensures { result ≡ refusal error }
{
    let code = match error {
        RightsError::NotFound => Code::NotFound,
        RightsError::NotAllowed => Code::NotAllowed,
        RightsError::InvalidArgument => Code::InvalidArgument,
        RightsError::Memory => return Err(WantOfMemory),
    };
    Ok(answered(alloc, Answer::Refused(code)))
}
