//! A return that is begun before its request is asked.

ghost use Rattle.std.specs.Prelude.{◌≡◌, ◌≤◌, length, false, true, IfOk, IfSome, IsOk, List as AList, None, Ok, Some, ℕ};
ghost use Rattle.dbus_calls.specs.Calls.{found};
ghost use Rattle.dbus_dispatch.specs.Replies.{reply_of};
ghost use Rattle.dbus_dispatch.specs.Writable.{IsTold};
ghost use Rattle.dbus_message.specs.Written.{front_bytes, message_bytes};
ghost use Rattle.dbus_types.specs.declared.message.Message.{Message as AMessage};
ghost use Rattle.dbus_types.specs.declared.message.OutMessage.TheVariants.{Return};
ghost use Rattle.bus_answers.specs.Begun.{IsBegun, IsBegunIf, extra_bytes, has_extra, sample};
ghost use Rattle.bus_answers.specs.declared.begun.Begun.{Begun as ABegun};
ghost use Rattle.bus_answers.specs.Little.{is_little};
ghost use Rattle.bus_answers.specs.Rooms.{HasRoom};

use crate::bodies::{with_ids, with_place};
use crate::kind::{ReturnKind, is_little, kind_of};
use dbus_calls::call::found;
use dbus_calls::method::Method;
use dbus_dispatch::body::{body_of, extra};
use dbus_marshal::write::write_value;
use dbus_message::write::write_front;
use dbus_types::message::{Message, OutMessage};
use dbus_types::types::Value;
use portal_base::limits::Settings;
use portal_base::list::{ByteList, List};
use portal_base::memory::WantOfMemory;
use portal_base::text::Text;
use portal_model::reply::Answer;
use std::alloc::Global;
use std::mem;

/// The room for a body but for the mount point: for 16 identifiers, and their number.
const BODY_ROOM: usize = 400;

/// How long what is begun may be.
const LONGEST_FRONT: usize = 16_384;

/// The return of a call, begun.
#[derive(Drop)]
pub struct Begun {
    /// The method of the call.
    pub method: Method,
    /// The return up to its body, with room for that.
    pub front: Vec<u8>,
    /// The mount point under its key, where the method returns it: behind four bytes, as it is
    /// spelled there.
    pub extra: ByteList,
}

/// Begins the return of a call with this serial, where the call may change something.
pub fn begin(
    alloc: Global,
    call: &Message,
    settings: &Settings,
    serial: u32,
) -> Result<Option<Begun>, WantOfMemory>
    ensures { IfOk result (IsBegunIf settings.now.mountpoint call.now serial) }
{
    let method = match found(call) {
        Ok(method) => method,
        Err(_) => return Ok(None),
    };
    match kind_of(method) {
        ReturnKind::Data => Ok(None),
        ReturnKind::Nothing | ReturnKind::Place | ReturnKind::Ids => {
            let mountpoint = settings.mountpoint.as_bytes();
            Ok(Some(begin_of(alloc, call, mountpoint, method, serial)?))
        }
    }
}

/// The same, of a call of this method.
fn begin_of(
    alloc: Global,
    call: &Message,
    mountpoint: &[u8],
    method: Method,
    serial: u32,
) -> Result<Begun, WantOfMemory>
    requires { found call.now ≡ Ok method }
    ensures { IfOk result (IsBegun mountpoint.now call.now serial) }
{
    let extra = extra_for(alloc, method, mountpoint)?;
    let answer = sample(alloc, method)?;
    let body = body_of(alloc, method, mountpoint, &answer)?;
    let bytes = front_with(alloc, call.serial, body, serial)?;
    // A mount point is a path on the host, which is shorter, so this never comes.
    if bytes.len() > LONGEST_FRONT || extra.len() > LONGEST_FRONT - bytes.len() {
        return Err(WantOfMemory);
    }
    let front = with_room(bytes, extra.len() + BODY_ROOM)?;
    Ok(Begun {
        method,
        front,
        extra,
    })
}

/// Bytes with room for so many more.
fn with_room(bytes: ByteList, count: usize) -> Result<Vec<u8>, WantOfMemory>
    ensures items { IfOk result (λ front. front.items ≡ bytes) }
    ensures room { IfOk result (λ front. HasRoom front count) }
{
    let mut front = bytes.into_vec();
    front.reserve(count)?;
    Ok(front)
}

/// What is kept for the mount point: its spelling, where a method returns it.
fn extra_for(alloc: Global, method: Method, mountpoint: &[u8]) -> Result<ByteList, WantOfMemory>
    ensures spelled { IfOk result (λ bytes. has_extra method ≡ true
        → bytes ≡ extra_bytes mountpoint.now) }
    ensures wide { IfOk result (λ bytes. 8 ≤ length bytes) }
{
    if has_extra(method) {
        extra_bytes(alloc, mountpoint)
    } else {
        List::copied(alloc, &[0; 8])
    }
}

/// Says whether a method returns the mount point behind identifiers.
fn has_extra(method: Method) -> bool
    ensures { result ≡ has_extra method }
{
    matches!(method, Method::AddFull | Method::AddNamedFull)
}

/// The mount point under its key, behind four bytes.
fn extra_bytes(alloc: Global, mountpoint: &[u8]) -> Result<ByteList, WantOfMemory>
    ensures spelled { IfOk result (λ bytes. bytes ≡ extra_bytes mountpoint.now) }
    ensures wide { IfOk result (λ bytes. 8 ≤ length bytes) }
{
    let value = extra(alloc, mountpoint)?;
    let mut bytes = List::copied(alloc, &[0, 0, 0, 0])?;
    write_value(&mut bytes, &value)?;
    Ok(bytes)
}

/// An answer whose values have the types of those that a method returns.
fn sample(alloc: Global, method: Method) -> Result<Answer, WantOfMemory>
    ensures { IfOk result (λ answer. answer ≡ sample method) }
{
    match kind_of(method) {
        ReturnKind::Nothing | ReturnKind::Data => Ok(Answer::Done),
        ReturnKind::Place => Ok(Answer::Place(0)),
        ReturnKind::Ids => {
            let mut ids = List::new(alloc);
            ids.push(Text::new(alloc))?;
            Ok(Answer::Ids(ids))
        }
    }
}

/// The bytes of a return ahead of a body with the types of these values.
fn front_with(
    alloc: Global,
    to: u32,
    body: List<Value>,
    serial: u32,
) -> Result<ByteList, WantOfMemory>
    ensures { IfOk result (λ bytes. bytes ≡ front_bytes (Return to body) serial) }
{
    let message = OutMessage::Return { to, body };
    write_front(alloc, &message, serial)
}

/// The return that was begun, with an answer that tells little. No memory is wanted for it.
pub fn finish(begun: Begun, answer: &Answer) -> Result<ByteList, WantOfMemory>
    requires long { 8 ≤ length begun.front.items }
    requires wide { 8 ≤ length begun.extra }
    requires little { is_little begun.method answer.now ≡ true }
    requires told { IsTold begun.method answer.now }
    ensures bytes { (mountpoint : AList ℕ) (call : AMessage) (serial : ℕ) →
        IsBegun mountpoint call serial begun → IfOk result (λ bytes. bytes
        ≡ message_bytes (reply_of mountpoint call answer.now) serial) }
    ensures room { (mountpoint : AList ℕ) (call : AMessage) (serial : ℕ) →
        IsBegun mountpoint call serial begun → IsOk result }
{
    let Begun {
        method,
        front,
        extra,
    } = begun;
    match answer {
        Answer::Place(place) => with_place(front, *place),
        Answer::Ids(ids) => with_ids(method, front, extra.as_slice(), ids.as_slice()),
        _ => Ok(List::from_vec(front)),
    }
}

/// The return that was begun, where this answer tells little. It is taken.
pub fn take_little(begun: &mut Option<Begun>, answer: &Answer) -> Option<Begun>
    ensures some { IfSome result (λ taken. (begun.old ≡ Some taken)
        × (is_little taken.method answer.now ≡ true)) }
    ensures none { result ≡ None → (kept : ABegun) → begun.old ≡ Some kept
        → is_little kept.method answer.now ≡ false }
{
    match mem::replace(begun, None) {
        Some(kept) => {
            if is_little(kept.method, answer) {
                Some(kept)
            } else {
                None
            }
        }
        None => None,
    }
}
