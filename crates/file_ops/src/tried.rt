//! Requests that may end with a call of the tree which changes or makes a file.

ghost use Rattle.std.specs.Prelude.{◌≡◌, ◌∷◌, ◌++◌, IfOk, OnErr, length, None};
ghost use Rattle.host_tree.specs.declared.tree.TreeDone.TheVariants as TreeDone;
ghost use Rattle.host_tree.specs.Trees.{TreeIs};
ghost use Rattle.portal_model.specs.declared.reply.NodeAnswer.TheVariants as NodeAnswer;
ghost use Rattle.portal_model.specs.NodeVerdict.{HandlesStay, at_file, at_name, errs, errs_on_file, told};
ghost use Rattle.file_ops.specs.Tries.{Goes, done_after, done_of_below, done_of_ended, done_of_tried, ended_by, fault_by, fault_behind, ended_of, called_at, fault_of_call, found_nothing, generation_in, moment_of, refuses, says, shown_behind, tree_done};
ghost use Rattle.node_looks.specs.Walks.{taken};
ghost use Rattle.file_ops.specs.declared.tried.Came.TheVariants as came;

use crate::opened::look_named;
use host_tree::{HostTree, LookAnswer, TreeDone};
use node_looks::asked::{refusal, refusal_on_file, room_for_look};
use node_looks::served::NodeDone;
use portal_base::files::{FileName, Look};
use portal_base::list::List;
use portal_base::memory::WantOfMemory;
use portal_base::names::HostPath;
use portal_model::entry::Fault;
use portal_model::errno::{EIO, ENOENT};
use portal_model::reply::{Answer, NodeAnswer};
use std::alloc::Global;

/// What came of a call that changes or makes a file, where it didn't want
/// memory.
#[derive(Clone, Copy)]
pub(crate) enum Came {
    /// It is done.
    Done,
    /// There is no such file, or no place for one.
    NotFile,
    /// A fault of the tree.
    Failed,
}

/// A call that changes or makes a file.
#[derive(Clone, Copy)]
pub(crate) struct CallMade {
    /// The moment that was read for it, which is needed where bytes change.
    pub now: Option<u64>,
    /// The generation of the file that it was to make beside the present ones.
    pub generation: Option<u64>,
    /// What came of it.
    pub came: Came,
}

/// The answer to a request, and the call that it ended with.
pub(crate) struct Ended {
    /// The answer.
    pub answer: Answer,
    /// The call, where one was reached.
    pub call: Option<CallMade>,
}

/// A request that ended, and the look that was taken ahead.
pub(crate) struct Tried {
    /// What the tree answered to the look, where one was taken.
    pub look: Option<LookAnswer>,
    /// How the request ended.
    pub ended: Ended,
}

/// A request that ended behind what was shown first.
pub(crate) struct TriedBelow {
    /// What was shown first, where the request went on behind it.
    pub first: Option<Look>,
    /// How it ended.
    pub then: Tried,
}

/// What came of a call of the tree.
pub(crate) fn came_of(done: TreeDone) -> Result<Came, WantOfMemory>
    ensures ok { IfOk result (λ came. done ≡ tree_done came) }
    ensures err { OnErr result (done ≡ TreeDone.Memory) }
{
    match done {
        TreeDone::Done => Ok(Came::Done),
        TreeDone::NotFile => Ok(Came::NotFile),
        TreeDone::Failed => Ok(Came::Failed),
        // It is the request's: no file and no handle is changed, but the tree was asked in vain,
        // and the clock may have been read.
        TreeDone::Memory => Err(WantOfMemory),
    }
}

impl Ended {
    /// A refusal, with no call.
    pub(crate) fn refused(errno: u32) -> Ended
        ensures same { result ≡ refuses errno }
        ensures goes { (tree : TreeIs) →
            Goes (errs errno) tree (done_of_ended result) HandlesStay tree }
    {
        Ended {
            answer: refusal(errno),
            call: None,
        }
    }

    /// An answer, with no call.
    pub(crate) fn told(answer: NodeAnswer) -> Ended
        ensures same { result ≡ says answer }
        ensures goes { (tree : TreeIs) →
            Goes (told answer) tree (done_of_ended result) HandlesStay tree }
    {
        Ended {
            answer: Answer::Node(answer),
            call: None,
        }
    }

    /// A call; the answer is that of the request where it was done.
    pub(crate) fn of_call(call: CallMade, answer: NodeAnswer) -> Ended
        ensures { result ≡ ended_of call answer }
    {
        match call.came {
            Came::Done => Ended {
                answer: Answer::Node(answer),
                call: Some(call),
            },
            Came::NotFile => Ended {
                answer: refusal(ENOENT),
                call: Some(call),
            },
            Came::Failed => Ended {
                answer: refusal(EIO),
                call: Some(call),
            },
        }
    }

    /// A call that changes or makes a present file, at a moment.
    pub(crate) fn by_call(now: u64, came: Came, answer: NodeAnswer) -> Ended
        ensures { result ≡ ended_by now came answer }
    {
        Ended::of_call(called_at(now, came), answer)
    }

    /// Such a call that found no file, or no place for one.
    pub(crate) fn missing(now: u64) -> Ended
        ensures { result ≡ ended_by now came.NotFile NodeAnswer.Empty }
    {
        Ended::by_call(now, Came::NotFile, NodeAnswer::Empty)
    }

    /// Such a call in which the tree failed.
    pub(crate) fn failed(now: u64) -> Ended
        ensures { result ≡ ended_by now came.Failed NodeAnswer.Empty }
    {
        Ended::by_call(now, Came::Failed, NodeAnswer::Empty)
    }
}

/// A call that changes or makes a present file, at a moment.
fn called_at(now: u64, came: Came) -> CallMade
    ensures { result ≡ called_at now came }
{
    CallMade {
        now: Some(now),
        generation: None,
        came,
    }
}

impl Tried {
    /// A request that ended with no look.
    pub(crate) fn unlooked(ended: Ended) -> Tried
        ensures { result ≡ record { look = None; ended = ended } }
    {
        Tried { look: None, ended }
    }

    /// A refusal of each request on a file, where the look shows one.
    pub(crate) fn refused_on_file<T: HostTree>(tree: &mut T, path: &HostPath, errno: u32) -> Tried
        ensures goes { Goes (at_file path.now (errs_on_file errno)) (T.is tree.old)
            (done_of_tried result) HandlesStay (T.is tree.new) }
        ensures call { result.ended.call ≡ None }
    {
        let look = tree.look(path);
        Tried {
            look: Some(look),
            ended: Ended {
                answer: refusal_on_file(look, errno),
                call: None,
            },
        }
    }

    /// A refusal of each request on a file, where the look shows one of this name.
    pub(crate) fn refused_on_name<T: HostTree>(tree: &mut T, name: &FileName, errno: u32) -> Tried
        ensures goes { Goes (at_name name.now (errs_on_file errno)) (T.is tree.old)
            (done_of_tried result) HandlesStay (T.is tree.new) }
        ensures call { result.ended.call ≡ None }
    {
        let look = look_named(tree, name);
        Tried {
            look: Some(look),
            ended: Ended {
                answer: refusal_on_file(look, errno),
                call: None,
            },
        }
    }

    /// What was done, with the looks in the room that was taken for them.
    pub(crate) fn done(self, room: List<Look>) -> NodeDone
        requires { length room ≡ 2 }
        ensures { result ≡ done_of_tried self }
    {
        let Tried { look, ended } = self;
        let Ended { answer, call } = ended;
        NodeDone {
            answer,
            looks: looks_in(room, look, call),
            listed: None,
            now: moment_of(call),
            generation: generation_in(call),
            fault: fault_behind(look, call),
        }
    }
}

impl TriedBelow {
    /// A request that took one look at most ahead of its call.
    pub(crate) fn at_once(then: Tried) -> TriedBelow
        ensures { result ≡ record { first = None; then = then } }
    {
        TriedBelow { first: None, then }
    }

    /// A refusal with no look and no call.
    pub(crate) fn refused(errno: u32) -> TriedBelow
        ensures { result ≡ record {
          first = None;
          then = record { look = None; ended = refuses errno };
        } }
    {
        TriedBelow::at_once(Tried::unlooked(Ended::refused(errno)))
    }

    /// What was done, with the looks in the room that was taken for them.
    pub(crate) fn done(self, room: List<Look>) -> NodeDone
        requires { length room ≡ 3 }
        ensures { result ≡ done_of_below self }
    {
        let TriedBelow { first, then } = self;
        match first {
            Some(shown) => done_after(room, shown, then),
            None => done_at_once(room, then),
        }
    }
}

/// What was done with one look at most ahead of the call.
fn done_at_once(mut room: List<Look>, then: Tried) -> NodeDone
    requires { length room ≡ 3 }
    ensures { result ≡ done_of_tried then }
{
    room.truncate(2);
    then.done(room)
}

/// What was done behind what was shown first.
fn done_after(room: List<Look>, shown: Look, then: Tried) -> NodeDone
    requires { length room ≡ 3 }
    ensures { result ≡ done_after shown (done_of_tried then) }
{
    let Tried { look, ended } = then;
    let Ended { answer, call } = ended;
    NodeDone {
        answer,
        looks: looks_after(room, shown, look, call),
        listed: None,
        now: moment_of(call),
        generation: generation_in(call),
        fault: fault_behind(look, call),
    }
}

/// Room for the looks of a request, which is taken before the tree is asked.
pub(crate) fn room_for_looks(alloc: Global) -> Result<List<Look>, WantOfMemory>
    ensures { IfOk result (λ room. length room ≡ 2) }
{
    let mut room = room_for_look(alloc)?;
    room.push(Look::Missing)?;
    Ok(room)
}

/// Room for the looks of a request that looks at a folder ahead of what is in it.
pub(crate) fn room_below(alloc: Global) -> Result<List<Look>, WantOfMemory>
    ensures { IfOk result (λ room. length room ≡ 3) }
{
    let mut room = room_for_looks(alloc)?;
    room.push(Look::Missing)?;
    Ok(room)
}

/// A look, and those that were taken behind it.
fn looks_after(
    room: List<Look>,
    first: Look,
    look: Option<LookAnswer>,
    call: Option<CallMade>,
) -> List<Look>
    requires { length room ≡ 3 }
    ensures { result ≡ first ∷ (taken look ++ shown_behind call) }
{
    match look {
        Some(LookAnswer::Is(shown)) => looks_after_two(room, first, shown, call),
        Some(LookAnswer::Failed) => looks_after_one(room, first, call),
        None => looks_after_one(room, first, call),
    }
}

/// Two looks, and those that were shown behind them.
fn looks_after_two(
    mut room: List<Look>,
    first: Look,
    shown: Look,
    call: Option<CallMade>,
) -> List<Look>
    requires { length room ≡ 3 }
    ensures { result ≡ first ∷ shown ∷ shown_behind call }
{
    room.set(0, first);
    room.set(1, shown);
    if found_nothing(call) {
        room.set(2, Look::Missing);
    } else {
        room.truncate(2);
    }
    room
}

/// A look, and those that were shown behind it.
fn looks_after_one(mut room: List<Look>, first: Look, call: Option<CallMade>) -> List<Look>
    requires { length room ≡ 3 }
    ensures { result ≡ first ∷ shown_behind call }
{
    room.set(0, first);
    if found_nothing(call) {
        room.set(1, Look::Missing);
        room.truncate(2);
    } else {
        room.truncate(1);
    }
    room
}

/// The looks that were shown.
fn looks_in(room: List<Look>, look: Option<LookAnswer>, call: Option<CallMade>) -> List<Look>
    requires { length room ≡ 2 }
    ensures { result ≡ taken look ++ shown_behind call }
{
    match look {
        Some(LookAnswer::Is(shown)) => looks_from(room, shown, call),
        Some(LookAnswer::Failed) => looks_behind(room, call),
        None => looks_behind(room, call),
    }
}

/// A look, and those that were shown behind it.
fn looks_from(mut room: List<Look>, shown: Look, call: Option<CallMade>) -> List<Look>
    requires { length room ≡ 2 }
    ensures { result ≡ shown ∷ shown_behind call }
{
    room.set(0, shown);
    if found_nothing(call) {
        room.set(1, Look::Missing);
    } else {
        room.truncate(1);
    }
    room
}

/// The looks that were shown behind the first.
fn looks_behind(mut room: List<Look>, call: Option<CallMade>) -> List<Look>
    requires { length room ≡ 2 }
    ensures { result ≡ shown_behind call }
{
    if found_nothing(call) {
        room.set(0, Look::Missing);
        room.truncate(1);
    } else {
        room.truncate(0);
    }
    room
}

/// Says whether a call was reached and found no file, or no place for one.
fn found_nothing(call: Option<CallMade>) -> bool
    ensures { result ≡ found_nothing call }
{
    match call {
        Some(call) => matches!(call.came, Came::NotFile),
        None => false,
    }
}

/// The moment that was read.
fn moment_of(call: Option<CallMade>) -> Option<u64>
    ensures { result ≡ moment_of call }
{
    match call {
        Some(call) => call.now,
        None => None,
    }
}

/// The generation of the file that was to be made beside the present ones.
fn generation_in(call: Option<CallMade>) -> Option<u64>
    ensures { result ≡ generation_in call }
{
    match call {
        Some(call) => call.generation,
        None => None,
    }
}

/// The device that failed.
fn fault_behind(look: Option<LookAnswer>, call: Option<CallMade>) -> Fault
    ensures { result ≡ fault_behind look call }
{
    match look {
        Some(LookAnswer::Failed) => Fault::Tree,
        Some(LookAnswer::Is(_)) | None => fault_of_call(call),
    }
}

/// The device that failed in a call.
fn fault_of_call(call: Option<CallMade>) -> Fault
    ensures { result ≡ fault_of_call call }
{
    match call {
        Some(call) => fault_by(call.came),
        None => Fault::None,
    }
}

/// The device that failed, by what came of a call.
fn fault_by(came: Came) -> Fault
    ensures { result ≡ fault_by came }
{
    match came {
        Came::Done | Came::NotFile => Fault::None,
        Came::Failed => Fault::Tree,
    }
}
