//! Whether a plan passes a limit of documents or of applications.

ghost use Rattle.std.specs.Prelude.{◌≡◌, ◌+◌, ◌<◌, length};
ghost use Rattle.portal_model.specs.Applications.{numbered};
ghost use Rattle.portal_model.specs.Grant.{numbered_with};
ghost use Rattle.portal_model.specs.State.{is_app};
ghost use Rattle.portal_model.specs.Valid.{is_numbered};
ghost use Rattle.add_calls.specs.Limits.{caller_numbered, exceeds_planned, has_document, named_numbered, numbered_by, uses_documents};

use add_files::{AddPlan, PlanItem, PlanUse};
use document_records::{Applications, Documents};
use portal_base::names::AppId;
use portal_base::who::Who;
use portal_model::state::APPLICATIONS_LIMIT;
use rights_rule::Rights;

/// Says whether a plan of a caller, followed with whatever numbers, passes a
/// limit of live documents, of made ones or of applications.
pub fn exceeds(
    documents: &Documents,
    applications: &Applications,
    who: &Who,
    plan: &AddPlan,
) -> bool
    ensures { result ≡ exceeds_planned documents.now applications.now who.now plan.now }
{
    // It is tested on the plan, ahead of any word: whether a limit is passed doesn't depend on the
    // numbers that are drawn.
    let more = new_applications(applications, who, plan);
    documents.room() < plan.used as u64 || applications.len() + more > APPLICATIONS_LIMIT
}

/// How many applications a plan gives a number.
fn new_applications(applications: &Applications, who: &Who, plan: &AddPlan) -> u32
    ensures count { length (numbered_by who.now plan.now applications.now)
        ≡ length applications.now + result }
    ensures few { result < 3 }
{
    if !uses_documents(plan.items.as_slice()) {
        return 0;
    }
    new_caller(applications, who) + new_named(applications, who, plan)
}

/// Whether the caller is an application without a number, counted.
fn new_caller(applications: &Applications, who: &Who) -> u32
    ensures count { length (caller_numbered who.now applications.now)
        ≡ length applications.now + result }
    ensures few { result < 2 }
{
    match who {
        Who::Host => 0,
        Who::App(app) => new_number(applications, app),
    }
}

/// Whether an application without a number gets one, counted.
fn new_number(applications: &Applications, app: &AppId) -> u32
    ensures count { length (numbered applications.now app.now)
        ≡ length applications.now + result }
    ensures few { result < 2 }
{
    if has_number(applications, app) { 0 } else { 1 }
}

/// Says whether an application has a number.
pub(crate) fn has_number(applications: &Applications, app: &AppId) -> bool
    ensures { result ≡ is_numbered applications.now app.now }
{
    applications.of(app).is_some()
}

/// Whether the application that is named gets a number, counted, once the
/// caller has one.
fn new_named(applications: &Applications, who: &Who, plan: &AddPlan) -> u32
    ensures count { length (named_numbered plan.now.app plan.now.listed
        (caller_numbered who.now applications.now))
        ≡ length (caller_numbered who.now applications.now) + result }
    ensures few { result < 2 }
{
    match &plan.app {
        None => 0,
        Some(app) => new_listed(applications, who, app, plan.listed),
    }
}

/// Whether an application that is given these rights gets a number, counted,
/// once the caller has one.
fn new_listed(applications: &Applications, who: &Who, app: &AppId, listed: Rights) -> u32
    ensures count { length (numbered_with app.now listed
        (caller_numbered who.now applications.now))
        ≡ length (caller_numbered who.now applications.now) + result }
    ensures few { result < 2 }
{
    if listed.is_empty() || is_numbered(applications, who, app) {
        0
    } else {
        1
    }
}

/// Says whether an application has a number, once the caller has one.
fn is_numbered(applications: &Applications, who: &Who, app: &AppId) -> bool
    ensures { result ≡ is_numbered (caller_numbered who.now applications.now) app.now }
{
    is_caller(who, app) || has_number(applications, app)
}

/// Says whether the caller is an application.
fn is_caller(who: &Who, app: &AppId) -> bool
    ensures { result ≡ is_app app.now who.now }
{
    match who {
        Who::Host => false,
        Who::App(caller) => *caller == *app,
    }
}

/// Says whether some file has a document.
fn uses_documents(items: &[PlanItem]) -> bool
    ensures { result ≡ uses_documents items.now }
{
    items.iter().any(|item| has_document(item.place))
}

fn has_document(place: PlanUse) -> bool
    ensures { result ≡ has_document place }
{
    !matches!(place, PlanUse::LeftOut)
}
