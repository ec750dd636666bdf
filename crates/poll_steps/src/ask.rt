//! Asking: Enter, the next item, Leave.

ghost use Rattle.std.specs.Prelude.{◌≡◌, ◌≤◌, [], false, true, length, List as AList, Option, ℕ};
ghost use Rattle.std.specs.Prelude.{IfNone, IfSome, option_to_list};
ghost use Rattle.futures.specs.Task.{IsArmed, Keeps};
ghost use Rattle.poll_ends.specs.Outside.{Counts};
ghost use Rattle.poll_laws.specs.Courses.{Fits, fresh, sight, standing};
ghost use Rattle.poll_laws.specs.declared.course.Turn.TheVariants as turn;
ghost use Rattle.poll_steps.specs.Steps.{ActIs, AsksNext, AsksOne, Enters, IsAside, IsAway};
ghost use Rattle.poll_steps.specs.Steps.{Leaves, Says, Stops};
ghost use Rattle.session.specs.Asked.{MayAnswer, asked_by};
ghost use Rattle.session.specs.Dues.{Became, CanTell, due_of};
ghost use Rattle.session.specs.Items.{joined};
ghost use Rattle.session.specs.Rooms.{FitsItsOp, HasRoomFor, IsLonger, IsTakenFor};
ghost use Rattle.session.specs.declared.act.Act.{Act as AnAct};
ghost use Rattle.session.specs.declared.act.Client.{Client as AClient};

use crate::meet::{close, meet};
use crate::send::put;
use futures::task::Context;
use poll_laws::course::{Course, Turn};
use portal_base::list::{ByteList, List};
use portal_base::memory::Replica;
use portal_desk::TryDesk;
use portal_model::asked::Asked;
use portal_model::request::Request;
use session::act::{Act, ItemError};
use session::answer::{Due, Parted, Told, answer, part};
use session::connection::refused_ending;
use session::item::read_item;
use session::parts::front;
use session::phase::next_cut;
use session::served::{Fed, Served, Stop};
use session::session::fed_of;
use std::alloc::Global;

/// What became of the next item.
#[derive(Clone, Copy)]
pub enum Next {
    /// It was asked and answered.
    Asked,
    /// There is none yet.
    NoItem,
    /// The desk was busy, and it wasn't asked.
    Busy,
    /// The connection ends here.
    Met,
}

/// Asks Enter, unless the desk is busy: then the poll yields. Where it is refused,
/// or there is no memory to ask it, the connection is over.
pub fn enter<D: TryDesk>(
    alloc: Global,
    course: &mut Course,
    desk: &mut D,
    context: &mut Context<'_>,
)
    requires fresh { standing course.old ≡ fresh course.old.client }
    requires fits { Fits course.old.turn (D.seated desk.old) }
    ensures enters { Enters (standing course.old) (D.seated desk.old) (D.busy desk.old)
        (standing course.new) (D.seated desk.new) (D.busy desk.new) }
    ensures fits_still { Fits course.new.turn (D.seated desk.new) }
    ensures registered { course.new.turn ≡ turn.Enter → IsArmed context.new }
    ensures yields { course.new.turn ≡ turn.Enter → context.new.is_woken ≡ true }
    ensures kept { Keeps context.old context.new }
    ensures goes { D.goes desk.old desk.new }
{
    desk.known();
    let Ok(who) = course.client.who.replica(alloc) else {
        close(course, Served::Memory);
        return;
    };
    let kind = course.client.kind;
    let asked = desk.try_ask(alloc, Request::Enter { who, kind });
    desk.known();
    match asked {
        Asked::Answered(_) => course.turn = Turn::Serve,
        Asked::Refused(refused) => close(course, refused_ending(refused)),
        Asked::Busy { .. } => {
            let _ = context.yield_now::<()>();
        }
    }
}

/// Asks Leave, unless the desk is busy: then the poll yields. The connection ended so.
pub fn leave<D: TryDesk>(
    alloc: Global,
    course: &mut Course,
    ending: Served,
    desk: &mut D,
    context: &mut Context<'_>,
)
    requires due { course.old.turn ≡ turn.Leave ending }
    requires fits { Fits course.old.turn (D.seated desk.old) }
    ensures leaves { Leaves ending (standing course.old) (D.seated desk.old) (D.busy desk.old)
        (standing course.new) (D.seated desk.new) (D.busy desk.new) }
    ensures fits_still { Fits course.new.turn (D.seated desk.new) }
    ensures registered { course.new.turn ≡ turn.Leave ending → IsArmed context.new }
    ensures yields { course.new.turn ≡ turn.Leave ending → context.new.is_woken ≡ true }
    ensures kept { Keeps context.old context.new }
    ensures goes { D.goes desk.old desk.new }
{
    desk.known();
    let asked = desk.try_ask(alloc, Request::Leave);
    desk.known();
    match asked {
        Asked::Answered(_) => close(course, ending),
        // This doesn't come, since the connection is open.
        Asked::Refused(_) => close(course, ending),
        Asked::Busy { .. } => {
            let _ = context.yield_now::<()>();
        }
    }
}

/// Asks the next item that was read. What answers it is unsent then, and nothing
/// else.
pub fn ask_next<D: TryDesk>(alloc: Global, course: &mut Course, desk: &mut D) -> Next
    requires serves { course.old.turn ≡ turn.Serve }
    requires sent { course.old.unsent.items ≡ [] }
    ensures asks { (left : Option (AList ℕ)) (reading : Counts) (told : Option (AList ℕ))
        (writing : Counts) → AsksNext result (standing course.old)
        (sight (D.seated desk.old) (D.busy desk.old) left reading told writing)
        (standing course.new)
        (sight (D.seated desk.new) (D.busy desk.new) left reading told writing) }
    ensures goes { D.goes desk.old desk.new }
{
    let len = match next_cut(&course.stage.phase, course.left.as_slice(), 0) {
        Ok(len) => len,
        Err(stop) => return stopped(course, stop),
    };
    let item = front(course.left.as_slice(), len);
    match read_item(alloc, &course.client, &mut course.stage.phase, item) {
        Ok(act) => ask_act(alloc, course, act, len, desk),
        Err(ItemError::Breaks { rule }) => stopped(course, Stop::Bad { rule }),
        Err(ItemError::Memory) => {
            meet(course, Served::Memory);
            Next::Met
        }
    }
}

/// No item stands at the front: there are too few bytes of one, or the connection
/// ends here.
fn stopped(course: &mut Course, stop: Stop) -> Next
    ensures { Stops result stop (standing course.old) (standing course.new) }
{
    match fed_of(course.before, stop) {
        Fed::Over(ending) => {
            meet(course, ending);
            Next::Met
        }
        _ => Next::NoItem,
    }
}

/// Asks what the item asks that has so many bytes, and answers it. Where the desk
/// is busy all stays as it was.
fn ask_act<D: TryDesk>(
    alloc: Global,
    course: &mut Course,
    act: Act,
    len: usize,
    desk: &mut D,
) -> Next
    requires serves { course.old.turn ≡ turn.Serve }
    requires sent { course.old.unsent.items ≡ [] }
    requires within { len ≤ length course.old.left.items }
    requires may_answer { MayAnswer course.old.client act }
    ensures asks { ActIs result act len (standing course.old) (D.seated desk.old)
        (D.busy desk.old) (standing course.new) (D.seated desk.new) (D.busy desk.new) }
    ensures goes { D.goes desk.old desk.new }
{
    if !take_room(alloc, course, &act) {
        meet(course, Served::Memory);
        return Next::Met;
    }
    let Parted { request, due } = part(act);
    // A request that the desk hands back is let go: its item is still there, and asks it again.
    let Some(told) = try_ask(alloc, request, desk) else {
        return Next::Busy;
    };
    course.left.advance(len);
    course.before += len as u64;
    if say(alloc, course, due, told) {
        return Next::Asked;
    }
    meet(course, Served::Memory);
    Next::Met
}

/// Puts what answers an item to what is unsent, and says whether there was memory.
fn say(alloc: Global, course: &mut Course, due: Due, told: Told) -> bool
    requires sent { course.old.unsent.items ≡ [] }
    requires can_tell { CanTell due told }
    requires taken { HasRoomFor course.old.client course.old.stage.serial due course.old.room }
    ensures says { Says result due told (standing course.old) (standing course.new) }
    // There is memory for whatever frame isn't longer, and for an answer that tells a call little,
    // where no signal rides ahead of it.
    ensures lacks { result ≡ false → IsLonger due told }
    ensures still { IsAside (standing course.old) (standing course.new) }
{
    let serial = course.stage.serial;
    match answer(alloc, &course.client, due, told, serial, &mut course.room) {
        Ok(speech) => {
            course.stage.serial = speech.serial;
            say_pieces(course, speech.pieces)
        }
        Err(_) => false,
    }
}

/// Puts pieces to what is unsent, and says whether there was memory. For one piece there is.
fn say_pieces(course: &mut Course, pieces: List<ByteList>) -> bool
    requires sent { course.old.unsent.items ≡ [] }
    ensures put { result ≡ true → course.new.unsent.items ≡ joined pieces }
    ensures one { length pieces ≤ 1 → result ≡ true }
    ensures still { IsAside (standing course.old) (standing course.new) }
    ensures serial { course.new.stage.serial ≡ course.old.stage.serial }
{
    match put(&mut course.unsent, pieces) {
        Ok(empty) => {
            course.room.keep(course.client.kind, empty);
            true
        }
        Err(_) => false,
    }
}

/// Takes room for the answer to what an item asks, where that is a request on a node or a call
/// that asks the portal, and says whether there was memory. For what asks anything else none is
/// taken.
fn take_room(alloc: Global, course: &mut Course, act: &Act) -> bool
    ensures same { standing course.new ≡ standing course.old }
    ensures needs { result ≡ false → AsksOne act.now }
    ensures taken { result ≡ true
        → IsTakenFor course.old.client course.old.stage.serial act.now course.new.room }
{
    match act {
        Act::Node { .. } => has_room(alloc, course, act),
        Act::Portal { .. } => has_room(alloc, course, act),
        _ => true,
    }
}

/// The same, of any item.
fn has_room(alloc: Global, course: &mut Course, act: &Act) -> bool
    ensures same { standing course.new ≡ standing course.old }
    ensures taken { result ≡ true
        → IsTakenFor course.old.client course.old.stage.serial act.now course.new.room }
{
    let serial = course.stage.serial;
    let taken = course.room.take(alloc, &course.client, act, serial);
    taken.is_ok()
}

/// Asks a request, where there is one, and says what became of it; or nothing where
/// the desk is busy.
fn try_ask<D: TryDesk>(alloc: Global, request: Option<Request>, desk: &mut D) -> Option<Told>
    ensures became { IfSome result (λ told. Became (option_to_list request) told
        (D.seated desk.old) (D.seated desk.new) × (D.busy desk.new ≡ D.busy desk.old)) }
    ensures put_off { IfNone result (IsAway request (D.seated desk.old) (D.busy desk.old)
        (D.seated desk.new) (D.busy desk.new)) }
    ensures fits { (c : AClient) (act : AnAct) → MayAnswer c act
        → asked_by act ≡ option_to_list request → IfSome result (CanTell (due_of act)) }
    ensures short { (act : AnAct) → asked_by act ≡ option_to_list request
        → IfSome result (FitsItsOp act) }
    ensures goes { D.goes desk.old desk.new }
{
    let Some(request) = request else {
        return Some(Told::Nothing);
    };
    match desk.try_ask(alloc, request) {
        Asked::Answered(reply) => {
            desk.known();
            Some(Told::Reply(reply))
        }
        Asked::Refused(refused) => Some(Told::Refused(refused)),
        Asked::Busy { .. } => None,
    }
}
