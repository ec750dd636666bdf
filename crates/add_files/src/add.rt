//! The plan of an addition.

ghost use Rattle.std.specs.Prelude.{◌≡◌, IfOk, IfErr, OnOk, List, length, map, true};
ghost use Rattle.portal_base.specs.declared.names.doc_id.DocId.{DocId as Number};
ghost use Rattle.portal_model.specs.declared.state.Connection.{Connection};
ghost use Rattle.portal_model.specs.Add.{add as add_walk};
ghost use Rattle.portal_model.specs.State.{State};
ghost use Rattle.add_files.specs.Arguments.{are_few};
ghost use Rattle.add_files.specs.Items.{are_below, paths_of};
ghost use Rattle.add_files.specs.Plans.{IsAsked, IsOfCall, IsPlan, IsRefused};

use crate::arguments::{few, file_name, listed, named_app};
use crate::files::{may_list, plan_files, used};
use crate::plan::{AddError, AddPlan};
use document_records::{Documents, Grants};
use portal_base::list::List;
use portal_base::names::{AppId, HostPath};
use portal_base::who::Who;
use portal_model::request::AddRequest;
use rights_rule::Rights;
use std::alloc::Global;

/// What an addition plans to do with the presented files that it takes, over
/// the records of documents and rights; each handle of the call names one of
/// the files. Neither the tree nor a limit is asked, and no number is drawn.
///
/// `InvalidArgument`: there are more than 16 files, or unknown flags; what is
/// named is neither nobody nor an application, or a right is unknown; or a named
/// file has no name, or no path. `NotAllowed`: an application lists, for the
/// application that is named, rights that it doesn't have itself then. The first of
/// these that applies is told.
///
/// It goes over the documents once for each file at most.
pub fn plan_add(
    alloc: Global,
    documents: &Documents,
    grants: &Grants,
    who: &Who,
    add: &AddRequest,
    paths: &[HostPath],
) -> Result<AddPlan, AddError>
    requires { are_below (length paths.now) add.now.handles ≡ true }
    ensures few { OnOk result (are_few add.now ≡ true) }
    ensures call { IfOk result (IsOfCall who.now add.now) }
    ensures paths { IfOk result (λ plan. map (λ item. item.path) plan.items
        ≡ paths_of add.now paths.now add.now.handles) }
    ensures ok { IfOk result (λ plan. (s : State) (c : Connection) →
        IsAsked s c add.now documents.now.live grants.now who.now paths.now →
        IsPlan s c add.now plan) }
    ensures err { IfErr result (λ error. (s : State) (c : Connection) →
        IsAsked s c add.now documents.now.live grants.now who.now paths.now →
        (numbers : List Number) → IsRefused (add_walk s c add.now numbers) error) }
{
    few(add)?;
    file_name(alloc, add)?;
    let rights = listed(&add.names)?;
    let app = named_app(alloc, add)?;
    let mut items = List::new(alloc);
    if let Err(error) = plan_files(alloc, documents, who, add, &app, paths, &mut items) {
        return Err(error);
    }
    // The rights are looked at after all files are placed, so that an argument is refused first.
    if !may_list(grants, who, add, &app, rights, items.as_slice()) {
        return Err(AddError::NotAllowed);
    }
    let used = used(items.as_slice());
    Ok(AddPlan {
        items,
        app,
        listed: rights,
        used,
    })
}
