//! What serving posts came to.

use host_tree::HostTree;
use portal_base::list::List;
use portal_base::outside::{Clock, Words};
use portal_core::portal::Portal;
use portal_start::start::StartRefusal;
use record_keeper::Keeper;
use worker_gate::worker::{Post, WorkEnd};

/// What serving posts came to.
#[derive(Drop)]
pub enum ServeStatus<L, T: HostTree, K: Keeper, C: Clock, W: Words> {
    /// Each post has ended.
    Ended {
        /// The posts, in their order.
        posts: List<Post<L>>,
        /// How the last worker of each ended, in the same order. None ended
        /// since the history had no room.
        ends: List<WorkEnd>,
        /// The portal, with the history since it was last renewed.
        portal: Portal<T, K, C, W>,
        /// How many turns there were.
        rounds: u64,
    },
    /// No portal started: the devices, and why.
    Refused(StartRefusal<T, K, C, W>),
    /// There was no memory to begin a turn, and no worker of it began.
    Memory,
}
