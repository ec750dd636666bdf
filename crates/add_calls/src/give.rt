//! Rights that an application is given in a document, and taken back.

ghost use Rattle.std.specs.Prelude.{◌≡◌, ◌<◌, ◌&&◌, ◌++◌, ℕ, not, List, true, length, IfOk, OnErr};
ghost use Rattle.portal_model.specs.declared.state.Triple.{Triple};
ghost use Rattle.portal_model.specs.Valid.{is_numbered};
ghost use Rattle.rights_rule.specs.Rights.{holds_any};
ghost use Rattle.add_calls.specs.Giving.{Gave, GaveBoth, GaveListed, GaveOwn, HasRoomFor, HasRoomForBoth, HasRoomForCaller, HasRoomForNamed, Numbered, app_if};

use crate::limit::has_number;
use add_files::AddPlan;
use document_records::{Applications, Grants};
use portal_base::memory::WantOfMemory;
use portal_base::names::{AppId, DocId};
use portal_base::who::Who;
use rights_rule::Rights;

/// What was there before an application was given rights in a document.
#[derive(Clone, Copy, Debug, PartialEq, Eq)]
pub(crate) struct Given {
    /// The rights that it had.
    pub before: Rights,
    /// Whether it was given a number.
    pub numbered: bool,
}

/// Gives rights of an application in a document, and a number to the
/// application where it had none and there is some right.
pub(crate) fn give(
    grants: &mut Grants,
    applications: &mut Applications,
    app: &AppId,
    id: DocId,
    rights: Rights,
) -> Result<Given, WantOfMemory>
    requires { HasRoomFor app.now rights applications.old }
    ensures ok { IfOk result (λ given. Gave app.now id rights given grants.old applications.old
        grants.new applications.new) }
    ensures rights { OnErr result (grants.new ≡ grants.old) }
    ensures applications { OnErr result (applications.new ≡ applications.old) }
{
    let before = grants.rights(app, id);
    let numbered = match number(applications, app, rights) {
        Ok(numbered) => numbered,
        Err(error) => return Err(error),
    };
    if let Err(error) = grants.add(app, id, rights) {
        if numbered {
            applications.take_back();
        }
        return Err(error);
    }
    Ok(Given { before, numbered })
}

/// Gives a number to an application that gets some right and has none; says
/// whether it did.
fn number(
    applications: &mut Applications,
    app: &AppId,
    rights: Rights,
) -> Result<bool, WantOfMemory>
    requires { HasRoomFor app.now rights applications.old }
    ensures ok { IfOk result (λ numbered. Numbered app.now rights numbered applications.old
        applications.new) }
    ensures err { OnErr result (applications.new ≡ applications.old) }
{
    if !needs_number(applications, app, rights) {
        return Ok(false);
    }
    if let Err(error) = applications.number(app) {
        return Err(error);
    }
    Ok(true)
}

/// Says whether an application gets a number with these rights.
fn needs_number(applications: &Applications, app: &AppId, rights: Rights) -> bool
    ensures { result ≡ (holds_any rights && not (is_numbered applications.now app.now)) }
{
    // In a valid state who has a right has a number, so one is given with the first right and not
    // before.
    !rights.is_empty() && !has_number(applications, app)
}

/// Takes back what was given last.
pub(crate) fn take_back(
    grants: &mut Grants,
    applications: &mut Applications,
    app: &AppId,
    id: DocId,
    rights: Rights,
    given: Given,
)
    ensures rights { (rights_then : List Triple) (apps : List (List ℕ)) →
        Gave app.now id rights given rights_then apps grants.old applications.old →
        grants.new ≡ rights_then }
    ensures applications { (rights_then : List Triple) (apps : List (List ℕ)) →
        Gave app.now id rights given rights_then apps grants.old applications.old →
        applications.new ≡ apps }
{
    grants.remove(app, id, rights.minus(given.before));
    take_number_back(applications, given.numbered);
}

/// Takes the number back that was given last, where one was.
fn take_number_back(applications: &mut Applications, numbered: bool)
    ensures { (app : List ℕ) (apps : List (List ℕ)) →
        applications.old ≡ apps ++ app_if numbered app → applications.new ≡ apps }
{
    if numbered && applications.len() > 0 {
        applications.take_back();
    }
}

/// Gives the rights that an addition gives its caller, where that is an
/// application.
fn give_own(
    grants: &mut Grants,
    applications: &mut Applications,
    who: &Who,
    id: DocId,
    own: Rights,
) -> Result<Option<Given>, WantOfMemory>
    requires { HasRoomForCaller who.now own applications.old }
    ensures ok { IfOk result (λ given. GaveOwn who.now id own given grants.old applications.old
        grants.new applications.new) }
    ensures rights { OnErr result (grants.new ≡ grants.old) }
    ensures applications { OnErr result (applications.new ≡ applications.old) }
{
    match who {
        Who::Host => Ok(None),
        Who::App(app) => match give(grants, applications, app, id, own) {
            Ok(given) => Ok(Some(given)),
            Err(error) => Err(error),
        },
    }
}

/// Takes back what the caller was given last.
fn take_own_back(
    grants: &mut Grants,
    applications: &mut Applications,
    who: &Who,
    id: DocId,
    own: Rights,
    given: Option<Given>,
)
    ensures rights { (rights : List Triple) (apps : List (List ℕ)) →
        GaveOwn who.now id own given rights apps grants.old applications.old →
        grants.new ≡ rights }
    ensures applications { (rights : List Triple) (apps : List (List ℕ)) →
        GaveOwn who.now id own given rights apps grants.old applications.old →
        applications.new ≡ apps }
{
    if let (Who::App(app), Some(given)) = (who, given) {
        take_back(grants, applications, app, id, own, given);
    }
}

/// Gives the rights that an addition lists, where it names an application.
fn give_listed(
    grants: &mut Grants,
    applications: &mut Applications,
    app: &Option<AppId>,
    id: DocId,
    listed: Rights,
) -> Result<Option<Given>, WantOfMemory>
    requires { HasRoomForNamed app.now listed applications.old }
    ensures ok { IfOk result (λ given. GaveListed app.now id listed given grants.old
        applications.old grants.new applications.new) }
    ensures rights { OnErr result (grants.new ≡ grants.old) }
    ensures applications { OnErr result (applications.new ≡ applications.old) }
{
    match app {
        None => Ok(None),
        Some(app) => match give(grants, applications, app, id, listed) {
            Ok(given) => Ok(Some(given)),
            Err(error) => Err(error),
        },
    }
}

/// Takes back what the application that is named was given last.
fn take_listed_back(
    grants: &mut Grants,
    applications: &mut Applications,
    app: &Option<AppId>,
    id: DocId,
    listed: Rights,
    given: Option<Given>,
)
    ensures rights { (rights : List Triple) (apps : List (List ℕ)) →
        GaveListed app.now id listed given rights apps grants.old applications.old →
        grants.new ≡ rights }
    ensures applications { (rights : List Triple) (apps : List (List ℕ)) →
        GaveListed app.now id listed given rights apps grants.old applications.old →
        applications.new ≡ apps }
{
    if let (Some(app), Some(given)) = (app, given) {
        take_back(grants, applications, app, id, listed, given);
    }
}

/// What was there before the rights of one file were given.
#[derive(Clone, Copy, PartialEq, Eq)]
pub(crate) struct GivenBoth {
    /// Of the caller, where that is an application.
    pub own: Option<Given>,
    /// Of the application that is named, where one is.
    pub listed: Option<Given>,
}

/// Gives the rights of one file: the caller's own, and then those that are
/// listed.
pub(crate) fn give_both(
    grants: &mut Grants,
    applications: &mut Applications,
    who: &Who,
    plan: &AddPlan,
    own: Rights,
    id: DocId,
) -> Result<GivenBoth, WantOfMemory>
    requires { HasRoomForBoth who.now plan.now own applications.old }
    ensures ok { IfOk result (λ given. GaveBoth who.now plan.now own id given grants.old
        applications.old grants.new applications.new) }
    ensures rights { OnErr result (grants.new ≡ grants.old) }
    ensures applications { OnErr result (applications.new ≡ applications.old) }
{
    let own_given = match give_own(grants, applications, who, id, own) {
        Ok(given) => given,
        Err(error) => return Err(error),
    };
    match give_listed(grants, applications, &plan.app, id, plan.listed) {
        Ok(listed) => Ok(GivenBoth {
            own: own_given,
            listed,
        }),
        Err(error) => {
            take_own_back(grants, applications, who, id, own, own_given);
            Err(error)
        }
    }
}

/// Takes back the rights of one file, which were given last.
pub(crate) fn take_both_back(
    grants: &mut Grants,
    applications: &mut Applications,
    who: &Who,
    plan: &AddPlan,
    own: Rights,
    id: DocId,
    given: GivenBoth,
)
    ensures rights { (rights : List Triple) (apps : List (List ℕ)) →
        GaveBoth who.now plan.now own id given rights apps grants.old applications.old →
        grants.new ≡ rights }
    ensures applications { (rights : List Triple) (apps : List (List ℕ)) →
        GaveBoth who.now plan.now own id given rights apps grants.old applications.old →
        applications.new ≡ apps }
{
    take_listed_back(
        grants,
        applications,
        &plan.app,
        id,
        plan.listed,
        given.listed,
    );
    take_own_back(grants, applications, who, id, own, given.own);
}
