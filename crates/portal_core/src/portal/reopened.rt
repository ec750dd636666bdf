//! A portal that opens with any state.

ghost use Rattle.std.specs.Prelude.{◌≡◌, IfOk};
ghost use Rattle.portal_core.specs.Started.{reopened};
ghost use Rattle.portal_desk.specs.Opening.{IsOpeningState};
ghost use Rattle.portal_model.specs.Opening.{opened_over};
ghost use Rattle.portal_model.specs.Valid.{Valid};
ghost use Rattle.portal_steps.specs.Answered.{KeepsState};

use crate::portal::Portal;
use host_tree::HostTree;
use portal_base::memory::WantOfMemory;
use portal_base::outside::{Clock, Words};
use portal_model::opening::OpeningState;
use portal_start::start::lists_of_opening;
use record_keeper::Keeper;
use std::alloc::Global;

impl<T: HostTree + Drop, K: Keeper + Drop, C: Clock + Drop, W: Words + Drop> Portal<T, K, C, W> {
    /// A portal that opens with this state, over devices that have what stands
    /// for it, of which none is asked.
    ///
    /// It is an opening state, and valid over the tree's files, which are those
    /// that it began with. A keeper that tells its records has those that stand
    /// for the state.
    pub fn reopen(
        alloc: Global,
        tree: T,
        keeper: K,
        clock: C,
        words: W,
        opening: OpeningState,
    ) -> Result<Portal<T, K, C, W>, WantOfMemory>
        requires valid { Valid (opened_over (T.is tree).began opening) }
        requires started { IsOpeningState (opened_over (T.is tree).began opening) }
        requires told { (T.is tree).told ≡ (T.is tree).began }
        requires kept { KeepsState (K.is keeper).told (opened_over (T.is tree).began opening) }
        ensures { IfOk result
            (λ portal. portal ≡ reopened T.is tree keeper clock words opening) }
    {
        match lists_of_opening(alloc, opening) {
            Ok(lists) => Ok(Portal::over(alloc, tree, keeper, clock, words, lists)),
            Err(error) => Err(error),
        }
    }
}
