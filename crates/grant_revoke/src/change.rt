//! GrantPermissions and RevokePermissions.

ghost use Rattle.std.specs.Prelude.{◌≡◌, IfOk, IfErr};
ghost use Rattle.portal_model.specs.Revoke.{names_itself};
ghost use Rattle.portal_model.specs.State.{State};
ghost use Rattle.grant_revoke.specs.Changes.{IsOfCall, IsRefused, done_by, may_change, planned, verdict_on};
ghost use Rattle.grant_revoke.specs.Records.{HasRecords, reached_in};

use crate::arguments::{listed, named};
use crate::lookup::reach;
use crate::plan::{RightsError, RightsKind, RightsPlan};
use document_records::{Documents, Grants};
use portal_base::names::AppId;
use portal_base::who::Who;
use portal_model::request::RightsCall;
use rights_rule::Rights;
use std::alloc::Global;

/// What a call that gives or takes rights plans to do, over the records of
/// documents and rights.
///
/// `InvalidArgument`: the application has no name, or a right is unknown.
/// `NotFound`: there is no such document, or the caller has no right in it.
/// `NotAllowed`: of a grant, the caller hasn't grant-permissions or a right
/// that it lists; of a revocation, it hasn't grant-permissions and names
/// another. The first of these that applies is told. No limit is asked.
pub fn check(
    alloc: Global,
    documents: &Documents,
    grants: &Grants,
    who: &Who,
    kind: RightsKind,
    call: &RightsCall,
) -> Result<RightsPlan, RightsError>
    ensures call { IfOk result (IsOfCall call.now) }
    ensures ok { IfOk result (λ plan. (s : State) → HasRecords s documents.now.live grants.now →
        verdict_on kind s who.now call.now ≡ done_by kind plan s) }
    ensures err { IfErr result (λ error. (s : State) →
        HasRecords s documents.now.live grants.now →
        IsRefused (verdict_on kind s who.now call.now) error) }
{
    let rights = listed(&call.names)?;
    let app = named(alloc, call.app.as_slice())?;
    plan(
        documents,
        grants,
        who,
        kind,
        call.doc.as_slice(),
        app,
        rights,
    )
}

/// What a call with sound arguments plans to do.
fn plan(
    documents: &Documents,
    grants: &Grants,
    who: &Who,
    kind: RightsKind,
    doc: &[u8],
    app: AppId,
    rights: Rights,
) -> Result<RightsPlan, RightsError>
    ensures { result ≡ planned kind app rights (names_itself who.now app)
        (reached_in documents.now.live grants.now who.now doc.now) }
{
    let Some(reached) = reach(documents, grants, who, doc) else {
        return Err(RightsError::NotFound);
    };
    if !may_change(kind, reached.held, rights, names_itself(who, &app)) {
        return Err(RightsError::NotAllowed);
    }
    Ok(RightsPlan {
        id: reached.id,
        app,
        rights,
    })
}

/// Says whether an application is the caller itself.
fn names_itself(who: &Who, app: &AppId) -> bool
    ensures { result ≡ names_itself who.now app.now }
{
    match who {
        Who::Host => false,
        Who::App(caller) => caller == app,
    }
}

/// Says whether who holds these rights may give the listed ones, or take them.
fn may_change(kind: RightsKind, held: Rights, listed: Rights, itself: bool) -> bool
    ensures { result ≡ may_change kind held listed itself }
{
    match kind {
        RightsKind::Grant => held.contains(Rights::GRANT_PERMISSIONS) && held.contains(listed),
        RightsKind::Revoke => held.contains(Rights::GRANT_PERMISSIONS) || itself,
    }
}
