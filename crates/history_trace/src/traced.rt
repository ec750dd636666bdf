//! The trace of an application in a history.

ghost use Rattle.std.specs.Prelude.{◌≡◌, ◌≤◌, map, IfOk};
ghost use Rattle.app_trace.specs.Told.{item_told, trace_told};
ghost use Rattle.app_world.specs.World.{items, trace};
ghost use Rattle.portal_desk.specs.Opening.{IsOpeningState};
ghost use Rattle.portal_model.specs.History.{Legal, cost};
ghost use Rattle.portal_model.specs.Opening.{opened};
ghost use Rattle.history_trace.specs.Replayed.{Begins};

use crate::beginning::{QuietPortal, opened_portal};
use crate::replay::replay;
use app_trace::{Trace, TraceItem, files_of, view_of};
use named_paths::OpenNumbers;
use portal_base::list::List;
use portal_base::memory::WantOfMemory;
use portal_base::names::AppId;
use portal_history::History;
use portal_model::opening::OpeningState;
use std::alloc::Global;
use std::collections::BTreeMap;

/// The trace of an application in a legal history, which begins in an opening
/// state, and costs no more than its limit: what it holds of that state, and what
/// then happens to it.
pub fn trace_of(
    alloc: Global,
    opening: &OpeningState,
    app: &AppId,
    history: &History,
) -> Result<Trace, WantOfMemory>
    requires legal { Legal (opened opening.now) history.now.entries }
    requires within { cost history.now.entries ≤ opening.now.limits.history }
    requires started { IsOpeningState (opened opening.now) }
    ensures { IfOk result (λ t. trace_told t
        ≡ trace app.now (opened opening.now) history.now.entries) }
{
    // The requests are asked again on a portal, so that what `Portal::ask` promises is all that
    // the loop needs.
    // The limit of the history is asked of the opening state, with which the other portal opens,
    // so that the history's own may be any.
    let items = items_told(alloc, opening, app, history)?;
    match view_of(alloc, opening, app) {
        Ok(opening) => Ok(Trace { opening, items }),
        Err(error) => Err(error),
    }
}

/// What happens to an application in a history.
fn items_told(
    alloc: Global,
    opening: &OpeningState,
    app: &AppId,
    history: &History,
) -> Result<List<TraceItem>, WantOfMemory>
    requires legal { Legal (opened opening.now) history.now.entries }
    requires within { cost history.now.entries ≤ opening.now.limits.history }
    requires started { IsOpeningState (opened opening.now) }
    ensures { IfOk result (λ told. map item_told told
        ≡ items app.now (opened opening.now) history.now.entries) }
{
    let mut portal = opened_portal(alloc, opening)?;
    let told = replay_all(alloc, &mut portal, opening, app, history);
    drop(portal);
    told
}

/// Asks every entry again on a portal that opens with the state that the history
/// begins in.
fn replay_all(
    alloc: Global,
    portal: &mut QuietPortal,
    opening: &OpeningState,
    app: &AppId,
    history: &History,
) -> Result<List<TraceItem>, WantOfMemory>
    requires legal { Legal (opened opening.now) history.now.entries }
    requires within { cost history.now.entries ≤ opening.now.limits.history }
    requires started { IsOpeningState (opened opening.now) }
    requires begins { Begins opening.now portal.old.story }
    ensures { IfOk result (λ told. map item_told told
        ≡ items app.now (opened opening.now) history.now.entries) }
{
    let mut files = files_of(alloc, opening)?;
    let mut numbers: OpenNumbers = BTreeMap::new(alloc);
    let mut told = List::new(alloc);
    for place in 0..history.len() {
        match history.entry(place) {
            Some(entry) => replay(
                alloc,
                portal,
                app,
                entry,
                &mut numbers,
                &mut files,
                &mut told,
            )?,
            None => unreachable!(),
        }
    }
    Ok(told)
}
