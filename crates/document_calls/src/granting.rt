//! GrantPermissions: an application gets rights in a document.

ghost use Rattle.std.specs.Prelude.{◌≡◌, ◌<◌, cond, length, IfOk, OnOk, OnErr, false, true};
ghost use Rattle.portal_model.specs.declared.request.Request.TheVariants as Request;
ghost use Rattle.portal_model.specs.declared.state.Connection.{Connection};
ghost use Rattle.portal_model.specs.Grant.{numbered_with};
ghost use Rattle.portal_model.specs.Rights.{add_rights};
ghost use Rattle.portal_model.specs.State.{State};
ghost use Rattle.portal_model.specs.Valid.{Valid};
ghost use Rattle.document_records.specs.Documents.{front};
ghost use Rattle.document_calls.specs.Books.{IsBook, with_book};
ghost use Rattle.document_calls.specs.Changes.{IsNumberedAnew, gains, has_no_number, regrant};
ghost use Rattle.document_calls.specs.KeeperCalls.{AppliedIf, KeeperStays, ServesKept};

use crate::deletion::is_kept;
use crate::keeping::keep_change;
use crate::served::{ServedCall, done, full, refused};
use document_records::{Applications, Documents, Grants};
use grant_revoke::{RightsKind, RightsPlan, check};
use portal_base::memory::WantOfMemory;
use portal_base::who::Who;
use portal_model::records::RecordChange;
use portal_model::request::RightsCall;
use portal_model::state::APPLICATIONS_LIMIT;
use record_keeper::Keeper;
use std::alloc::Global;

/// Gives an application the listed rights in a document, and a number where it
/// has none. The keeper is asked where the document outlives the run and one of
/// the rights is new.
///
/// `InvalidArgument`, `NotFound` and `NotAllowed` as [`check`] says;
/// `LimitsExceeded`: no number is left for the application; `Failed`: the
/// keeper failed. Nothing is then changed.
pub fn grant<K: Keeper>(
    alloc: Global,
    documents: &Documents,
    grants: &mut Grants,
    applications: &mut Applications,
    keeper: &mut K,
    who: &Who,
    call: &RightsCall,
) -> Result<ServedCall, WantOfMemory>
    ensures ok { IfOk result (λ served. (s : State) (c : Connection) →
        IsBook s documents.now grants.old applications.old → Valid s → c.who ≡ who.now →
        ServesKept s c (Request.Grant call.now) served.given
        (with_book s documents.now grants.new applications.new) served.answer
        (K.is keeper.old) (K.is keeper.new)) }
    ensures grants { OnErr result (grants.new ≡ grants.old) }
    ensures applications { OnErr result (applications.new ≡ applications.old) }
    ensures keeper { OnErr result (KeeperStays (K.is keeper.old) (K.is keeper.new)) }
{
    match check(alloc, documents, grants, who, RightsKind::Grant, call) {
        Err(error) => refused(alloc, error),
        Ok(plan) => {
            if has_no_number(applications, &plan) {
                return Ok(full(alloc));
            }
            match give(alloc, documents, grants, applications, keeper, &plan) {
                Ok(failed) => Ok(done(alloc, failed)),
                Err(error) => Err(error),
            }
        }
    }
}

/// Says whether a plan gives rights to an application for which no number is
/// left.
fn has_no_number(applications: &Applications, plan: &RightsPlan) -> bool
    ensures { result ≡ has_no_number applications.now plan.now }
{
    !plan.rights.is_empty()
        && applications.of(&plan.app).is_none()
        && applications.len() >= APPLICATIONS_LIMIT
}

/// Gives rights as planned, and says whether the keeper failed.
fn give<K: Keeper>(
    alloc: Global,
    documents: &Documents,
    grants: &mut Grants,
    applications: &mut Applications,
    keeper: &mut K,
    plan: &RightsPlan,
) -> Result<bool, WantOfMemory>
    requires { has_no_number applications.old plan.now ≡ false }
    ensures called { IfOk result (λ failed. AppliedIf
        (regrant (gains documents.now.live grants.old plan.now)
        (add_rights plan.now.app plan.now.id plan.now.rights grants.old) plan.now.id)
        (K.is keeper.old) failed (K.is keeper.new)) }
    ensures given { IfOk result (λ failed. grants.new ≡ cond failed grants.old
        (add_rights plan.now.app plan.now.id plan.now.rights grants.old)) }
    ensures numbered { IfOk result (λ failed. applications.new ≡ cond failed applications.old
        (numbered_with plan.now.app plan.now.rights applications.old)) }
    ensures grants { OnErr result (grants.new ≡ grants.old) }
    ensures applications { OnErr result (applications.new ≡ applications.old) }
    ensures keeper { OnErr result (KeeperStays (K.is keeper.old) (K.is keeper.new)) }
{
    let new = number(applications, plan)?;
    match give_rights(alloc, documents, grants, keeper, plan) {
        Ok(false) => Ok(false),
        Ok(true) => {
            take_back_number(applications, new);
            Ok(true)
        }
        Err(error) => {
            take_back_number(applications, new);
            Err(error)
        }
    }
}

/// Numbers the application of a plan that gives it a right, and says whether it
/// had no number.
fn number(applications: &mut Applications, plan: &RightsPlan) -> Result<bool, WantOfMemory>
    requires { has_no_number applications.old plan.now ≡ false }
    ensures ok { OnOk result (applications.new
        ≡ numbered_with plan.now.app plan.now.rights applications.old) }
    ensures new { IfOk result (IsNumberedAnew applications.old applications.new) }
    ensures err { OnErr result (applications.new ≡ applications.old) }
{
    if plan.rights.is_empty() {
        return Ok(false);
    }
    if applications.of(&plan.app).is_some() {
        return Ok(false);
    }
    applications.number(&plan.app)?;
    Ok(true)
}

/// Takes back the number that an application got last, where it is new.
fn take_back_number(applications: &mut Applications, new: bool)
    requires { new ≡ true → 0 < length applications.old }
    ensures { applications.new ≡ cond new (front applications.old) applications.old }
{
    if new {
        applications.take_back();
    }
}

/// Gives rights as planned to an application, and says whether the keeper
/// failed.
fn give_rights<K: Keeper>(
    alloc: Global,
    documents: &Documents,
    grants: &mut Grants,
    keeper: &mut K,
    plan: &RightsPlan,
) -> Result<bool, WantOfMemory>
    ensures called { IfOk result (λ failed. AppliedIf
        (regrant (gains documents.now.live grants.old plan.now)
        (add_rights plan.now.app plan.now.id plan.now.rights grants.old) plan.now.id)
        (K.is keeper.old) failed (K.is keeper.new)) }
    ensures given { IfOk result (λ failed. grants.new ≡ cond failed grants.old
        (add_rights plan.now.app plan.now.id plan.now.rights grants.old)) }
    ensures grants { OnErr result (grants.new ≡ grants.old) }
    ensures keeper { OnErr result (KeeperStays (K.is keeper.old) (K.is keeper.new)) }
{
    // The rights are added first, the record is built from them, and only what was new is taken
    // back.
    let gained = plan.rights.minus(grants.rights(&plan.app, plan.id));
    let kept = is_kept(documents, plan.id) && !gained.is_empty();
    grants.add(&plan.app, plan.id, plan.rights)?;
    match keep_grants(alloc, grants, keeper, plan, kept) {
        Ok(false) => Ok(false),
        Ok(true) => {
            grants.remove(&plan.app, plan.id, gained);
            Ok(true)
        }
        Err(error) => {
            grants.remove(&plan.app, plan.id, gained);
            Err(error)
        }
    }
}

/// Asks the keeper for the rights that now stand in a document, where this says
/// that they are to be kept.
fn keep_grants<K: Keeper>(
    alloc: Global,
    grants: &Grants,
    keeper: &mut K,
    plan: &RightsPlan,
    kept: bool,
) -> Result<bool, WantOfMemory>
    ensures ok { IfOk result (λ failed. AppliedIf (regrant kept grants.now plan.now.id)
        (K.is keeper.old) failed (K.is keeper.new)) }
    ensures err { OnErr result (KeeperStays (K.is keeper.old) (K.is keeper.new)) }
{
    if !kept {
        return Ok(false);
    }
    let grants = grants.records(plan.id)?;
    let change = RecordChange::SetGrants {
        number: plan.id.number,
        grants,
    };
    keep_change(alloc, keeper, Some(change))
}
