//! Serving posts over any value that keeps a history.

ghost use Rattle.std.specs.Prelude.{◌≡◌, ◌≤◌, ℕ, IfOk, length, map, replicate, false};
ghost use Rattle.std.specs.List.{list_any};
ghost use Rattle.portal_model.specs.History.{run};
ghost use Rattle.portal_model.specs.Seated.{is_open};
ghost use Rattle.worker_gate.specs.Working.{sides};
ghost use Rattle.serve_posts.specs.Posts.{halls, is_left, unserved};
ghost use Rattle.serve_posts.specs.Rounds.{OneTurn, Renewal, ServesAll, stand};

use crate::housed::Housed;
use crate::worker::{Crew, is_left, seat_workers, stand_up, work_all};
use portal_base::limits::Settings;
use portal_base::list::List;
use portal_base::memory::WantOfMemory;
use portal_core::storied::{Renews, Storied};
use std::alloc::{AllocGlobal, Global};
use std::random::RandomSource;
use std::sync::Wait;
use std::thread::Threads;
use turn_desk::end::close;
use turn_desk::seats::Turn;
use turn_desk::start::{Started, TurnError};
use worker_gate::gate::Gate;
use worker_gate::listener::Listener;
use worker_gate::worker::{Post, WorkEnd};

/// For how many requests that free what others hold memory is taken ahead of each turn.
const AHEAD: u32 = 1_024;

/// What workers came to.
#[derive(Drop)]
pub(crate) struct Shift<L, S> {
    /// The posts, in their order.
    pub(crate) posts: List<Post<L>>,
    /// How the last worker of each ended.
    pub(crate) ends: List<WorkEnd>,
    /// What kept the history.
    pub(crate) story: S,
}

/// Serves each post in turns, until none is left. It answers how many turns
/// there were, too.
///
/// No seat has an open connection in the history so far. Where there is no
/// memory for a turn no worker of it begins. Ahead of each turn memory is taken for
/// requests that free what others hold. Meanwhile what keeps the history is in a box.
pub(crate) fn serve_over<R, L, S, G>(
    alloc: Global,
    rt: &R,
    posts: List<Post<L>>,
    story: S,
    settings: &Settings,
    gate: &G,
) -> Result<(Shift<L, S>, u64), WantOfMemory>
where
    R: Threads + Wait + RandomSource + AllocGlobal + Sync,
    L: Listener + Send + Drop,
    L::In: Send + Drop,
    L::Out: Send + Drop,
    S: Renews + Send + Drop,
    G: Gate + Sync,
    requires count { (1 ≤ length posts) × (length posts ≤ 65535) }
    requires closed { (n : ℕ) → is_open (run (S.opening story) (S.entries story)) n ≡ false }
    ensures { IfOk result (λ served. ServesAll
        (sides L.In.left L.In.faults L.Out.told L.Out.faults) (halls L.links L.ends L.faults)
        settings.now (S.opening story) (S.entries story) posts served.1
        (stand (S.opening served.0.story) (S.entries served.0.story) served.0.posts
        served.0.ends)) }
{
    let story = Housed::new(alloc, story)?;
    match serve_all(alloc, rt, posts, story, settings, gate) {
        Ok((Shift { posts, ends, story }, rounds)) => {
            let story = story.into_inner();
            Ok((Shift { posts, ends, story }, rounds))
        }
        Err(error) => Err(error),
    }
}

/// The same, wherever what keeps the history is.
fn serve_all<R, L, S, G>(
    alloc: Global,
    rt: &R,
    posts: List<Post<L>>,
    story: S,
    settings: &Settings,
    gate: &G,
) -> Result<(Shift<L, S>, u64), WantOfMemory>
where
    R: Threads + Wait + RandomSource + AllocGlobal + Sync,
    L: Listener + Send + Drop,
    L::In: Send + Drop,
    L::Out: Send + Drop,
    S: Renews + Send + Drop,
    G: Gate + Sync,
    requires count { (1 ≤ length posts) × (length posts ≤ 65535) }
    requires closed { (n : ℕ) → is_open (run (S.opening story) (S.entries story)) n ≡ false }
    ensures { IfOk result (λ served. ServesAll
        (sides L.In.left L.In.faults L.Out.told L.Out.faults) (halls L.links L.ends L.faults)
        settings.now (S.opening story) (S.entries story) posts served.1
        (stand (S.opening served.0.story) (S.entries served.0.story) served.0.posts
        served.0.ends)) }
{
    let story = kept_ahead(alloc, story);
    story.known();
    let ends = all_unserved(alloc, posts.len())?;
    let mut shift = serve_turn(alloc, rt, posts, ends, story, settings, gate)?;
    let mut rounds = 1u64;
    'turns: for _ in rt.forever() {
        if !any_left(shift.ends.as_slice()) {
            return Ok((shift, rounds));
        }
        let Shift { posts, ends, story } = shift;
        let story = renewed(alloc, story, gate, rounds);
        shift = match serve_turn(alloc, rt, posts, ends, story, settings, gate) {
            Ok(after) => after,
            Err(error) => return Err(error),
        };
        rounds = rounds.saturating_add(1);
    }
    unreachable!()
}

/// So many posts are left before their first turn.
fn all_unserved(alloc: Global, count: usize) -> Result<List<WorkEnd>, WantOfMemory>
    ensures { IfOk result (λ ends. ends ≡ replicate count unserved) }
{
    let ends = vec![in alloc; WorkEnd::Full { cost: 0, limit: 0 }; count]?;
    Ok(List::from_vec(ends))
}

/// Whether a post is left.
fn any_left(ends: &[WorkEnd]) -> bool
    ensures { result ≡ list_any is_left ends.now }
{
    ends.iter().any(|end| is_left(*end))
}

/// Begins a new history behind so many turns, where that isn't refused, tells the gate, and
/// takes memory ahead.
fn renewed<S: Renews + Drop, G: Gate>(alloc: Global, story: S, gate: &G, turns: u64) -> S
    ensures { Renewal (S.opening story) (S.entries story) (S.opening result) (S.entries result) }
{
    let story = begun_anew(alloc, story, gate, turns);
    kept_ahead(alloc, story)
}

/// Begins a new history behind so many turns, where that isn't refused, and tells the gate.
fn begun_anew<S: Renews + Drop, G: Gate>(alloc: Global, story: S, gate: &G, turns: u64) -> S
    ensures { Renewal (S.opening story) (S.entries story) (S.opening result) (S.entries result) }
{
    let mut story = story;
    // Where it is refused, the next turn goes on with what there is.
    if story.renew(alloc).is_ok() {
        gate.renewed(turns);
    }
    story
}

/// Takes memory ahead, as far as there is any; the history is the same.
fn kept_ahead<S: Renews + Drop>(alloc: Global, story: S) -> S
    ensures opening { S.opening result ≡ S.opening story }
    ensures entries { S.entries result ≡ S.entries story }
{
    let mut story = story;
    story.keep_ahead(alloc, AHEAD);
    story
}

/// One turn: serves each post that is left by a worker of its own, in a seat of
/// its number, over one history. The posts come back in their order.
///
/// No seat has an open connection in the history so far, nor behind the turn.
/// Where there is no memory no worker begins.
fn serve_turn<R, L, S, G>(
    alloc: Global,
    rt: &R,
    posts: List<Post<L>>,
    ends: List<WorkEnd>,
    story: S,
    settings: &Settings,
    gate: &G,
) -> Result<Shift<L, S>, WantOfMemory>
where
    R: Threads + Wait + RandomSource + AllocGlobal + Sync,
    L: Listener + Send + Drop,
    L::In: Send + Drop,
    L::Out: Send + Drop,
    S: Storied + Send + Drop,
    G: Gate + Sync,
    requires count { (1 ≤ length posts) × (length posts ≤ 65535) }
    requires ends { length ends ≡ length posts }
    requires closed { (n : ℕ) → is_open (run (S.opening story) (S.entries story)) n ≡ false }
    ensures turn { IfOk result (λ shift. OneTurn
        (sides L.In.left L.In.faults L.Out.told L.Out.faults) (halls L.links L.ends L.faults)
        settings.now (stand (S.opening story) (S.entries story) posts ends)
        (stand (S.opening shift.story) (S.entries shift.story) shift.posts shift.ends)) }
{
    let count = posts.len();
    let crew = Crew::with_room(alloc, count)?;
    let Started { turn, passes } = match Turn::start(alloc, story, count as u32) {
        Ok(started) => started,
        Err(TurnError::Memory { portal: _ }) => return Err(WantOfMemory),
    };
    let mut workers = seat_workers(alloc, rt, &turn, posts, ends, passes)?;
    work_all(alloc, rt, settings, gate, workers.as_mut_slice());
    let Crew {
        passes,
        posts,
        ends,
    } = stand_up(workers, crew);
    let story = close(turn, passes);
    story.known();
    Ok(Shift {
        posts: List::from_vec(posts),
        ends: List::from_vec(ends),
        story,
    })
}
