//! A worker, which serves the links of a post.

ghost use Rattle.std.specs.Prelude.{◌≡◌, List, false, true, is_some, IfOk};
ghost use Rattle.portal_desk.specs.Knowing.{Known};
ghost use Rattle.portal_model.specs.Seated.{Exchange, is_open, state_seen};
ghost use Rattle.session.specs.Standings.{client};
ghost use Rattle.worker_gate.specs.Working.{ServesLink, Works, hall, sides, visit};

use crate::gate::{Gate, GateDesk, GateSink};
use crate::listener::{Accepted, Link, Listener};
use crate::polled::{PolledEnd, serve_polled};
use futures::task::{Doorbell, Solo};
use once_desk::OnceDesk;
use portal_base::limits::Settings;
use portal_base::memory::{Replica, WantOfMemory};
use portal_base::who::{Kind, Who};
use session::act::Client;
use session::connection::serve_connection;
use session::served::Served;
use std::alloc::{AllocGlobal, Global};
use std::io;
use std::random::RandomSource;
use std::sync::Wait;

/// Where the clients of one caller come: a listener, whom its links are bound
/// to, what they speak, and how their connections are served.
#[derive(Drop)]
pub struct Post<L> {
    /// Where the links come from.
    pub listener: L,
    /// Whom they are bound to.
    pub who: Who,
    /// What they speak.
    pub kind: Kind,
    /// Whether their connections are polled.
    pub polled: bool,
}

/// How a worker ended.
#[derive(Clone, Copy, Debug, PartialEq, Eq)]
pub enum WorkEnd {
    /// No link comes any more.
    Closed,
    /// Accepting failed.
    Failed,
    /// There was no memory to accept, or nothing that polls could be a task of.
    Memory,
    /// The history had no room for a connection.
    Full {
        /// The cost of the history, in bytes.
        cost: u64,
        /// The limit, in bytes.
        limit: u64,
    },
}

/// Serves the links of a post at a desk, one after another, until its listener
/// gives none or the history has no room for one.
///
/// Each link is one served connection, polled or not, over a desk and a sink that tell
/// the gate, and is handed back before the next is accepted. It returns only where
/// the listener, the links and the desk do. The desk's seat has no open
/// connection.
pub fn work<R, D: OnceDesk, L: Listener, G: Gate>(
    alloc: Global,
    rt: &R,
    worker: u32,
    desk: &mut D,
    post: &mut Post<L>,
    settings: &Settings,
    gate: &G,
) -> WorkEnd
where
    R: Wait + RandomSource + AllocGlobal,
    L::In: Drop,
    L::Out: Drop,
    requires { is_open (state_seen (D.seated desk.old)) (D.seated desk.old).seat ≡ false }
    // The links that were served, and how the listener ended.
    ensures works { Works (sides L.In.left L.In.faults L.Out.told L.Out.faults) post.old.polled
        (client post.old.who post.old.kind settings.now) result
        (hall (L.links post.old.listener) (L.ends post.old.listener) (L.faults post.old.listener))
        (D.seated desk.old)
        (hall (L.links post.new.listener) (L.ends post.new.listener) (L.faults post.new.listener))
        (D.seated desk.new) }
    // The desk's seat has no open connection then either.
    ensures closed_now { is_open (state_seen (D.seated desk.new)) (D.seated desk.new).seat ≡ false }
    // The history that the desk sees is legal from an opening state, and the seat's entries in it
    // are its own.
    ensures known { Known (D.seated desk.new) }
    ensures who { post.new.who ≡ post.old.who }
    ensures kind { post.new.kind ≡ post.old.kind }
    ensures polled { post.new.polled ≡ post.old.polled }
    ensures goes { D.goes desk.old desk.new }
{
    desk.known();
    let Ok(task) = task_of(rt, post.polled) else {
        return WorkEnd::Memory;
    };
    'links: for _ in rt.forever() {
        match post.listener.accept(alloc) {
            Accepted::Link { source, sink } => {
                let link = Link { source, sink };
                let (Link { source, sink }, served) = serve_link(
                    alloc, rt, &task, worker, desk, post, settings, link, gate,
                );
                post.listener.done(source, sink);
                if let Served::Full { cost, limit } = served {
                    return WorkEnd::Full { cost, limit };
                }
            }
            Accepted::Closed => return WorkEnd::Closed,
            Accepted::Failed => return WorkEnd::Failed,
            Accepted::Memory => return WorkEnd::Memory,
        }
    }
    unreachable!()
}

/// The task that the polls of a post's connections are, where they are polled.
fn task_of<R: RandomSource + AllocGlobal>(rt: &R, polled: bool) -> io::Result<Option<Solo>>
    ensures { IfOk result (λ task. is_some task ≡ polled) }
{
    if !polled {
        return Ok(None);
    }
    // Nobody waits for its doorbell: between two polls nothing is waited for.
    Ok(Some(Solo::new(rt, Doorbell::spinning())?))
}

/// Serves one link of a post, and gives it back with the ending of its
/// connection.
fn serve_link<R: Wait, D: OnceDesk, L: Listener, G: Gate>(
    alloc: Global,
    rt: &R,
    task: &Option<Solo>,
    worker: u32,
    desk: &mut D,
    post: &Post<L>,
    settings: &Settings,
    link: Link<L::In, L::Out>,
    gate: &G,
) -> (Link<L::In, L::Out>, Served)
where
    L::In: Drop,
    L::Out: Drop,
    requires closed { is_open (state_seen (D.seated desk.old)) (D.seated desk.old).seat ≡ false }
    requires polled { is_some task.now ≡ post.now.polled }
    ensures serves { (made : List Exchange)
        × ServesLink (sides L.In.left L.In.faults L.Out.told L.Out.faults) post.now.polled
        (client post.now.who post.now.kind settings.now) link (D.seated desk.old)
        (visit result.1 made) result.0 (D.seated desk.new) }
    ensures goes { D.goes desk.old desk.new }
{
    match task {
        Some(task) => {
            serve_link_polled(alloc, rt, task, worker, desk, post, settings, link, gate)
        }
        None => serve_link_waiting(alloc, worker, desk, post, settings, link, gate),
    }
}

/// The same by a session that waits.
fn serve_link_waiting<D: OnceDesk, L: Listener, G: Gate>(
    alloc: Global,
    worker: u32,
    desk: &mut D,
    post: &Post<L>,
    settings: &Settings,
    link: Link<L::In, L::Out>,
    gate: &G,
) -> (Link<L::In, L::Out>, Served)
    requires { is_open (state_seen (D.seated desk.old)) (D.seated desk.old).seat ≡ false }
    ensures serves { (made : List Exchange)
        × ServesLink (sides L.In.left L.In.faults L.Out.told L.Out.faults) false
        (client post.now.who post.now.kind settings.now) link (D.seated desk.old)
        (visit result.1 made) result.0 (D.seated desk.new) }
    ensures goes { D.goes desk.old desk.new }
{
    let Link { mut source, sink } = link;
    let mut sink = GateSink::new(worker, sink, gate);
    let mut desk = GateDesk::new(worker, desk, gate);
    let served = serve_connection(
        alloc,
        &mut desk,
        &post.who,
        post.kind,
        settings,
        &mut source,
        &mut sink,
    );
    let link = Link {
        source,
        sink: sink.into_sink(),
    };
    (link, served)
}

/// The same poll by poll. Where there is no memory for the client, nothing is asked.
fn serve_link_polled<R: Wait, D: OnceDesk, L: Listener, G: Gate>(
    alloc: Global,
    rt: &R,
    task: &Solo,
    worker: u32,
    desk: &mut D,
    post: &Post<L>,
    settings: &Settings,
    link: Link<L::In, L::Out>,
    gate: &G,
) -> (Link<L::In, L::Out>, Served)
where
    L::In: Drop,
    L::Out: Drop,
    requires { is_open (state_seen (D.seated desk.old)) (D.seated desk.old).seat ≡ false }
    ensures serves { (made : List Exchange)
        × ServesLink (sides L.In.left L.In.faults L.Out.told L.Out.faults) true
        (client post.now.who post.now.kind settings.now) link (D.seated desk.old)
        (visit result.1 made) result.0 (D.seated desk.new) }
    ensures goes { D.goes desk.old desk.new }
{
    desk.known();
    let Ok(client) = client_of(alloc, post, settings) else {
        return (link, Served::Memory);
    };
    let Link { source, sink } = link;
    let sink = GateSink::new(worker, sink, gate);
    let desk = GateDesk::new(worker, desk, gate);
    let PolledEnd { served, desk, link } = serve_polled(
        alloc,
        rt,
        task,
        client,
        desk,
        Link { source, sink },
    );
    let _ = desk.into_desk();
    let Link { source, sink } = link;
    let link = Link {
        source,
        sink: sink.into_sink(),
    };
    (link, served)
}

/// The client of a post's links.
fn client_of<L>(alloc: Global, post: &Post<L>, settings: &Settings) -> Result<Client, WantOfMemory>
    ensures { IfOk result (λ made. made ≡ client post.now.who post.now.kind settings.now) }
{
    Ok(Client {
        who: post.who.replica(alloc)?,
        kind: post.kind,
        settings: settings.replica(alloc)?,
    })
}
