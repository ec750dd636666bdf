//! Workers, each in its seat at its post.

ghost use Rattle.std.specs.Prelude.{◌≡◌, ◌∷◌, [], ◌+◌, ◌<◌, ◌≤◌, ℕ, List, IfOk, length, map, Some, slice_get, false, vec_capacity, vec_len};
ghost use Rattle.portal_model.specs.Seated.{is_open, state_seen};
ghost use Rattle.turn_desk.specs.Sights.{seated_of};
ghost use Rattle.worker_gate.specs.Working.{sides};
ghost use Rattle.serve_posts.specs.Posts.{AttendsLeft, halls, is_left, sat_down};

use portal_base::limits::Settings;
use portal_base::list::List;
use portal_base::memory::WantOfMemory;
use portal_core::storied::Storied;
use std::alloc::{AllocGlobal, Global};
use std::random::RandomSource;
use std::sync::Wait;
use std::thread;
use std::thread::Threads;
use turn_desk::seats::{Pass, Turn};
use turn_desk::waiting::WaitingSeat;
use worker_gate::gate::Gate;
use worker_gate::listener::Listener;
use worker_gate::worker::{Post, WorkEnd, work};

/// A worker in its seat, at its post.
#[derive(Drop)]
pub(crate) struct Worker<'a, R, L, S: Storied> {
    /// Its number, which is that of its seat.
    pub(crate) number: u32,
    /// Its seat.
    pub(crate) desk: WaitingSeat<'a, R, S>,
    /// Its post.
    pub(crate) post: Post<L>,
    /// How its work ended; before that, how that of the last worker at its post did.
    pub(crate) end: WorkEnd,
}

/// The passes and the posts that workers bring back, and how their work ended.
#[derive(Drop)]
pub(crate) struct Crew<L, S: Storied> {
    /// Their passes.
    pub(crate) passes: Vec<Pass<S>>,
    /// Their posts.
    pub(crate) posts: Vec<Post<L>>,
    /// How the work of each ended.
    pub(crate) ends: Vec<WorkEnd>,
}

impl<L: Drop, S: Storied + Drop> Crew<L, S> {
    /// Room for so many.
    pub(crate) fn with_room(alloc: Global, count: usize) -> Result<Crew<L, S>, WantOfMemory>
        ensures empty { IfOk result (λ crew. (crew.passes.items ≡ []) × (crew.posts.items ≡ [])
            × (crew.ends.items ≡ [])) }
        ensures room { IfOk result (λ crew. (count ≤ vec_capacity crew.passes)
            × (count ≤ vec_capacity crew.posts) × (count ≤ vec_capacity crew.ends)) }
    {
        // Whoever hands passes to threads puts each back without memory, since all are needed to
        // close the turn.
        let mut passes = Vec::new(alloc);
        passes.reserve(count)?;
        let mut posts = Vec::new(alloc);
        posts.reserve(count)?;
        let mut ends = Vec::new(alloc);
        ends.reserve(count)?;
        Ok(Crew {
            passes,
            posts,
            ends,
        })
    }
}

/// A worker for each post, whose last worker ended so, in the seat of its pass.
pub(crate) fn seat_workers<'a, R, L: Drop, S: Storied + Drop>(
    alloc: Global,
    rt: &'a R,
    turn: &'a Turn<S>,
    posts: List<Post<L>>,
    ends: List<WorkEnd>,
    passes: Vec<Pass<S>>,
) -> Result<Vec<Worker<'a, R, L, S>>, WantOfMemory>
    requires table { (k : ℕ) (p : _) → slice_get passes.items k ≡ Some p
        → p.table ≡ turn.now.table }
    requires as_many { vec_len passes ≡ length posts }
    requires ends { length ends ≡ length posts }
    ensures posts { IfOk result (λ workers. map (λ w. w.post) workers.items ≡ posts) }
    ensures ends { IfOk result (λ workers. map (λ w. w.end) workers.items ≡ ends) }
    ensures seats { IfOk result (λ workers. map (λ w. w.desk) workers.items
        ≡ map sat_down passes.items) }
{
    let mut workers = Vec::new(alloc);
    workers.reserve(posts.len())?;
    let mut passes = passes.into_iter();
    let mut ends = ends.into_vec().into_iter();
    for post in posts.into_vec() {
        let Some(pass) = passes.next() else {
            unreachable!()
        };
        let Some(end) = ends.next() else {
            unreachable!()
        };
        let number = pass.number();
        let desk = pass.sit(turn).waiting(rt);
        workers.push_reserved(Worker {
            number,
            desk,
            post,
            end,
        });
    }
    Ok(workers)
}

/// Whether a post is left whose last worker ended so.
pub(crate) fn is_left(end: WorkEnd) -> bool
    ensures { result ≡ is_left end }
{
    match end {
        WorkEnd::Full { cost: _, limit: _ } => true,
        WorkEnd::Closed | WorkEnd::Failed | WorkEnd::Memory => false,
    }
}

/// A worker serves its post, where that is left.
fn work_at<R: Wait + RandomSource + AllocGlobal, L: Listener, S: Storied, G: Gate>(
    alloc: Global,
    rt: &R,
    settings: &Settings,
    gate: &G,
    worker: &mut Worker<'_, R, L, S>,
)
where
    L::In: Drop,
    L::Out: Drop,
    requires { is_open (state_seen (seated_of worker.old.desk)) worker.old.desk.knows.number
        ≡ false }
    ensures { AttendsLeft (sides L.In.left L.In.faults L.Out.told L.Out.faults)
        (halls L.links L.ends L.faults) settings.now worker.old.post worker.old.end
        worker.old.desk worker.new.end worker.new.post worker.new.desk }
{
    if !is_left(worker.end) {
        return;
    }
    worker.end = work(
        alloc,
        rt,
        worker.number,
        &mut worker.desk,
        &mut worker.post,
        settings,
        gate,
    );
}

/// All workers serve their posts, where those are left, each in a thread of its
/// own where one can be started.
pub(crate) fn work_all<
    R: Threads + Wait + RandomSource + AllocGlobal + Sync,
    L: Listener + Send,
    S: Storied + Send,
    G: Gate + Sync,
>(alloc: Global, rt: &R, settings: &Settings, gate: &G, workers: &mut [Worker<'_, R, L, S>])
where
    L::In: Send + Drop,
    L::Out: Send + Drop,
    requires some { 0 < length workers.old }
    requires closed { (k : ℕ) (w : _) → slice_get workers.old k ≡ Some w
        → is_open (state_seen (seated_of w.desk)) w.desk.knows.number ≡ false }
    ensures as_many { length workers.new ≡ length workers.old }
    ensures each { (k : ℕ) (a b : _) → slice_get workers.old k ≡ Some a
        → slice_get workers.new k ≡ Some b
        → AttendsLeft (sides L.In.left L.In.faults L.Out.told L.Out.faults)
        (halls L.links L.ends L.faults) settings.now a.post a.end a.desk b.end b.post b.desk }
{
    let count = workers.len();
    // This halves the list, so the stack grows as the logarithm of its length, and no memory is
    // taken between the first worker's start and the last one's end.
    thread::for_each_mut(
        rt,
        workers,
        count,
        &|_, worker|
            requires { is_open (state_seen (seated_of worker.old.desk))
                worker.old.desk.knows.number ≡ false }
            ensures { AttendsLeft (sides L.In.left L.In.faults L.Out.told L.Out.faults)
                (halls L.links L.ends L.faults) settings.entry.now worker.old.post
                worker.old.end worker.old.desk worker.new.end worker.new.post worker.new.desk }
        { work_at(alloc, rt, settings, gate, worker) },
    );
}

/// All workers leave their seats.
pub(crate) fn stand_up<R, L: Drop, S: Storied + Drop>(
    workers: Vec<Worker<'_, R, L, S>>,
    crew: Crew<L, S>,
) -> Crew<L, S>
    requires empty { (crew.passes.items ≡ []) × (crew.posts.items ≡ [])
        × (crew.ends.items ≡ []) }
    requires room { (vec_len workers ≤ vec_capacity crew.passes)
        × (vec_len workers ≤ vec_capacity crew.posts)
        × (vec_len workers ≤ vec_capacity crew.ends) }
    ensures posts { result.posts.items ≡ map (λ w. w.post) workers.entry.items }
    ensures ends { result.ends.items ≡ map (λ w. w.end) workers.entry.items }
    ensures tables { map (λ p. p.table) result.passes.items
        ≡ map (λ w. w.desk.table) workers.entry.items }
    ensures knows { map (λ p. p.knows) result.passes.items
        ≡ map (λ w. w.desk.knows) workers.entry.items }
{
    let mut crew = crew;
    for worker in workers {
        let Worker {
            number: _,
            desk,
            post,
            end,
        } = worker;
        crew.passes.push_reserved(desk.seat().leave());
        crew.posts.push_reserved(post);
        crew.ends.push_reserved(end);
    }
    crew
}
