//! Serving posts over a portal.

ghost use Rattle.std.specs.Prelude.{◌≡◌, ◌<◌, ◌≤◌, ◌^◌, length};
ghost use Rattle.portal_start.specs.Loading.{BeganFirst};
ghost use Rattle.worker_gate.specs.Working.{sides};
ghost use Rattle.serve_posts.specs.Posts.{halls};
ghost use Rattle.serve_posts.specs.Statuses.{ServesAs};

use crate::shift::{Shift, serve_over};
use crate::status::ServeStatus;
use host_tree::HostTree;
use portal_base::limits::Settings;
use portal_base::list::List;
use portal_base::memory::WantOfMemory;
use portal_base::outside::{Clock, Words};
use portal_core::portal::Portal;
use record_keeper::Keeper;
use std::alloc::{AllocGlobal, Global};
use std::random::RandomSource;
use std::sync::Wait;
use std::thread::Threads;
use worker_gate::gate::Gate;
use worker_gate::listener::Listener;
use worker_gate::worker::Post;

/// Serves each post by a worker of its own, in a seat of its own, over a portal
/// that is started for it. Workers and seats are numbered from 1, in the order
/// of the posts.
///
/// A worker that ends since the history has no room doesn't end its post. When
/// all workers have ended, the portal is renewed, and a further turn serves the
/// posts that are left, in the seats of their numbers. Where it can't be renewed
/// that turn goes on with what there is.
///
/// `Ended` hands the posts back in their order, with the end of each one's last
/// worker, and the portal. `Refused` is what `Portal::start` answers, with the
/// devices. At `Memory` no worker of a turn began. It returns only where all
/// workers do.
pub fn serve<R, L, T, K, C, W, G>(
    alloc: Global,
    rt: &R,
    posts: List<Post<L>>,
    tree: T,
    keeper: K,
    clock: C,
    words: W,
    settings: &Settings,
    gate: &G,
) -> ServeStatus<L, T, K, C, W>
where
    R: Threads + Wait + RandomSource + AllocGlobal + Sync,
    L: Listener + Send + Drop,
    L::In: Send + Drop,
    L::Out: Send + Drop,
    T: HostTree + Send + Drop,
    K: Keeper + Send + Drop,
    C: Clock + Send + Drop,
    W: Words + Send + Drop,
    G: Gate + Sync,
    requires count { (1 ≤ length posts) × (length posts ≤ 65535) }
    requires made { settings.now.limits.made < 2 ^ 32 }
    requires queued { settings.now.limits.queued < 2 ^ 32 }
    requires told { (T.is tree).told ≡ (T.is tree).began }
    requires first { BeganFirst (T.is tree).began }
    ensures { ServesAs (sides L.In.left L.In.faults L.Out.told L.Out.faults)
        (halls L.links L.ends L.faults) T.is K.is posts tree keeper clock words settings.now result }
{
    match Portal::start(alloc, tree, keeper, clock, words, settings.limits) {
        Ok(portal) => match serve_over(alloc, rt, posts, portal, settings, gate) {
            Ok((Shift { posts, ends, story }, rounds)) => ServeStatus::Ended {
                posts,
                ends,
                portal: story,
                rounds,
            },
            Err(WantOfMemory) => ServeStatus::Memory,
        },
        Err(refusal) => ServeStatus::Refused(refusal),
    }
}
