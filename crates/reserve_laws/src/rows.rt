//! Requests that are asked in a row.

ghost use Rattle.std.specs.Prelude.{◌≡◌, ◌+◌, ◌≤◌, length, true, IfErr, IsOk, OnOk};
ghost use Rattle.portal_model.specs.History.{cost};
ghost use Rattle.portal_steps.specs.Story.{limit_of};
ghost use Rattle.reserve_laws.specs.Rows.{IsFull, WereAnswered, are_reserved, cost_of_all};

use host_tree::HostTree;
use portal_base::list::List;
use portal_base::outside::{Clock, Words};
use portal_core::portal::Portal;
use portal_model::reply::Refused;
use portal_model::request::Request;
use record_keeper::Keeper;
use std::alloc::Global;

/// A request of a seat.
#[derive(Debug, Drop)]
pub struct SeatRequest {
    /// The seat.
    pub seat: u32,
    /// Its request.
    pub request: Request,
}

/// Asks a portal these requests, one after another, up to one that is refused. The replies are
/// let go.
///
/// Where all are of kinds for which memory can be taken ahead, and it was taken for as many, none
/// wants memory. So after `Portal::reserve` of a count that many requests in a row don't.
pub fn ask_each<T: HostTree, K: Keeper, C: Clock, W: Words>(
    alloc: Global,
    portal: &mut Portal<T, K, C, W>,
    requests: List<SeatRequest>,
) -> Result<(), Refused>
    ensures memory { are_reserved requests ≡ true → length requests ≤ portal.old.spare
        → IfErr result IsFull }
    ensures all { are_reserved requests ≡ true → length requests ≤ portal.old.spare
        → cost portal.old.story.history + cost_of_all requests ≤ limit_of portal.old.story
        → IsOk result }
    ensures answered { OnOk result (WereAnswered requests portal.old.story portal.new.story) }
    ensures left { are_reserved requests ≡ true
        → OnOk result (portal.old.spare ≤ portal.new.spare + length requests) }
{
    for asked in requests.into_vec() {
        match portal.ask(alloc, asked.seat, asked.request) {
            Ok(reply) => drop(reply),
            Err(refused) => return Err(refused),
        }
    }
    Ok(())
}
