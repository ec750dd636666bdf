//! Running a service.

ghost use Rattle.serve_words.specs.Words.{IsInForm};
ghost use Rattle.worker_gate.specs.Working.{sides};
ghost use Rattle.serve_posts.specs.Posts.{halls};
ghost use Rattle.serve_start.specs.Runs.{RunsAs};

use crate::end::ServeEnd;
use crate::openers::Openers;
use crate::prepare::{Prepared, prepare};
use host_tree::HostTree;
use portal_base::outside::{Clock, Words};
use record_keeper::Keeper;
use serve_posts::serve::serve;
use serve_posts::status::ServeStatus;
use serve_words::words::ServeWords;
use std::alloc::{AllocGlobal, Global};
use std::random::RandomSource;
use std::sync::Wait;
use std::thread::Threads;
use worker_gate::gate::Gate;
use worker_gate::listener::Listener;

/// What running a service came to.
#[derive(Drop)]
pub enum ServeRun<L, T: HostTree, K: Keeper, C: Clock, W: Words> {
    /// An opening was refused, so that no service began or none of its sockets stood; or there
    /// was no memory to begin.
    Refused(ServeEnd),
    /// Its posts were served.
    Served(ServeStatus<L, T, K, C, W>),
}

/// Opens what the words ask for, and serves it.
///
/// It returns only where all workers do.
pub fn run<R, O, L, T, K, C, W, G>(
    alloc: Global,
    rt: &R,
    words: &ServeWords,
    openers: &mut O,
    gate: &G,
) -> ServeRun<L, T, K, C, W>
where
    R: Threads + Wait + RandomSource + AllocGlobal + Sync,
    O: Openers<L, T, K, C, W>,
    L: Listener + Send + Drop,
    L::In: Send + Drop,
    L::Out: Send + Drop,
    T: HostTree + Send + Drop,
    K: Keeper + Send + Drop,
    C: Clock + Send + Drop,
    W: Words + Send + Drop,
    G: Gate + Sync,
    requires { IsInForm words.now }
    ensures { RunsAs C (sides L.In.left L.In.faults L.Out.told L.Out.faults)
        (halls L.links L.ends L.faults) O.at T.is K.is W.told words.now (O.faults openers.old)
        result (O.faults openers.new) }
{
    let prepared = match prepare(alloc, words, openers) {
        Ok(prepared) => prepared,
        Err(end) => return ServeRun::Refused(end),
    };
    let Prepared {
        posts,
        tree,
        keeper,
        clock,
        words: drawn,
        settings,
    } = prepared;
    openers.expect(posts.len() as u64);
    let status = serve(
        alloc, rt, posts, tree, keeper, clock, drawn, &settings, gate,
    );
    match openers.close() {
        Ok(()) => ServeRun::Served(status),
        Err(end) => {
            drop(status);
            ServeRun::Refused(end)
        }
    }
}
