//! Reading items.

ghost use Rattle.std.specs.Prelude.{◌≡◌, ◌≤◌, length, IfOk, Ok, OnOk, OnErr};
ghost use Rattle.session.specs.Cuts.{Cuts, next_phase, line_of, whole_item};
ghost use Rattle.session.specs.Asked.{Means, MessageMeans, MayAnswer, OrMemory, act_of_frame};
ghost use Rattle.session.specs.Asked.{act_of_message, frame_act, is_host, reply_to};
ghost use Rattle.dbus_auth.specs.Command.{longest_line};
ghost use Rattle.dbus_auth.specs.Handshake.{step};
ghost use Rattle.dbus_message.specs.Rules.{IsWhole};
ghost use Rattle.fuse_wire.specs.Frames.{split_of};
ghost use Rattle.portal_base.specs.declared.split.Split.TheVariants as split;
ghost use Rattle.session.specs.declared.act.Client.{Client as AClient};

use crate::act::{Act, Client, ItemError};
use crate::phase::{CR_LF, Phase};
use dbus_auth::{Auth, AuthAnswer};
use dbus_dispatch::ask::{Ask, expects_reply, request_of};
use dbus_message::error::MessageError;
use dbus_message::read::read_message;
use dbus_types::message::{Message, OutMessage};
use fuse_wire::frame::unique_of;
use fuse_wire::request::{FuseAsk, read_request};
use portal_base::memory::WantOfMemory;
use portal_base::who::Who;
use std::alloc::Global;

/// The rule that `BEGIN` breaks before OK was said.
pub const BEGIN_RULE: u32 = 13;

/// Says what a whole item asks, and moves on to what is due behind it.
///
/// An item that asks nothing leaves what is due.
pub fn read_item(
    alloc: Global,
    client: &Client,
    phase: &mut Phase,
    item: &[u8],
) -> Result<Act, ItemError>
    requires { Cuts phase.old item.now (whole_item (length item.now)) }
    ensures means { Means client.now phase.old item.now result }
    ensures moves { OnOk result (phase.new ≡ next_phase client.now phase.old item.now) }
    ensures stays { OnErr result (phase.new ≡ phase.old) }
    ensures may_answer { IfOk result (MayAnswer client.now) }
{
    match phase {
        Phase::ZeroByte => {
            *phase = Phase::Handshake(Auth::new(&client.settings.guid));
            Ok(Act::Nothing)
        }
        Phase::Handshake(auth) => match step(alloc, auth, item)? {
            AuthAnswer::Say(reply) => Ok(Act::Line { reply }),
            AuthAnswer::Begin => {
                *phase = Phase::Messages;
                Ok(Act::Nothing)
            }
            AuthAnswer::Early => Err(ItemError::Breaks { rule: BEGIN_RULE }),
        },
        Phase::Messages => read_call(alloc, client, item),
        Phase::Frames => read_frame(alloc, item),
    }
}

/// Takes a line of the handshake with its CR LF.
fn step(alloc: Global, auth: &mut Auth, item: &[u8]) -> Result<AuthAnswer, WantOfMemory>
    requires { length item.now ≤ longest_line }
    ensures ok { IfOk result (λ answer. (answer, auth.new) ≡ step auth.old (line_of item.now)) }
    ensures err { OnErr result (auth.new ≡ auth.old) }
{
    auth.step(alloc, &item[..item.len().saturating_sub(CR_LF.len())])
}

/// Says what a message asks.
fn read_call(alloc: Global, client: &Client, item: &[u8]) -> Result<Act, ItemError>
    requires { IsWhole item.now }
    ensures means { MessageMeans client.now item.now result }
    ensures may_answer { IfOk result (MayAnswer client.now) }
{
    let message = match read_message(alloc, item) {
        Ok(message) => message,
        Err(MessageError::Bad { rule }) => return Err(ItemError::Breaks { rule }),
        Err(MessageError::Memory) => return Err(ItemError::Memory),
    };
    call_act(alloc, client, message)
}

/// Says what a message that was read asks.
fn call_act(alloc: Global, client: &Client, message: Message) -> Result<Act, ItemError>
    ensures asks { OrMemory result (act_of_message client.now message) }
    ensures may_answer { IfOk result (MayAnswer client.now) }
{
    let Ok(asked) = request_of(alloc, &message, &client.settings) else {
        return Err(ItemError::Memory);
    };
    match asked {
        Ask::Local(answer) => Ok(Act::Call {
            reply: reply_to(&message, answer),
            collects: is_host(&client.who),
        }),
        Ask::Ignore => Ok(Act::Nothing),
        Ask::Portal(request) => Ok(Act::Portal {
            call: message,
            request,
        }),
    }
}

/// The answer, where the call expects one.
pub(crate) fn reply_to(call: &Message, answer: OutMessage) -> Option<OutMessage>
    ensures { result ≡ reply_to call.now answer }
{
    if expects_reply(call) {
        Some(answer)
    } else {
        None
    }
}

fn is_host(who: &Who) -> bool
    ensures { result ≡ is_host who.now }
{
    match who {
        Who::Host => true,
        Who::App(_) => false,
    }
}

/// Says what a frame asks.
fn read_frame(alloc: Global, item: &[u8]) -> Result<Act, ItemError>
    requires { split_of item.now ≡ split.Whole (length item.now) }
    ensures asks { OrMemory result (Ok (frame_act item.now)) }
    ensures may_answer { (c : AClient) → IfOk result (MayAnswer c) }
{
    let unique = unique_of(item);
    Ok(frame_act(unique, read_request(alloc, item)?))
}

/// Says what is asked with a frame of this number.
fn frame_act(unique: u64, asked: FuseAsk) -> Act
    ensures asks { result ≡ act_of_frame unique asked }
    ensures may_answer { (c : AClient) → MayAnswer c result }
{
    match asked {
        FuseAsk::Portal(request) => Act::Node { unique, request },
        FuseAsk::Local(answer) => Act::Local { unique, answer },
        FuseAsk::Ignore => Act::Nothing,
    }
}
