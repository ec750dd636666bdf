//! Room for the answer to a request.
//!
//! It is taken before the request is asked, so that behind a change no memory is
//! wanted for its answer.

ghost use Rattle.std.specs.Prelude.{◌≡◌, [], OnOk, vec_capacity};
ghost use Rattle.session.specs.Rooms.{HasReturn, IsTaken, IsTakenFor};

use crate::act::{Act, Client};
use crate::speech::serial_after;
use bus_answers::begun::{Begun, begin};
use dbus_types::message::Message;
use portal_base::list::{ByteList, List};
use portal_base::memory::WantOfMemory;
use portal_base::who::Kind;
use std::alloc::Global;
use std::mem;

/// How many bytes stand behind the header of a frame at most, but of bytes and of names: those of
/// the answer to a CREATE.
pub const LONGEST_BODY: usize = 144;

/// The length of such a frame, in bytes.
const FRAME_ROOM: usize = 160;

/// A list for the piece that answers a request, a buffer for the frame of one on a node, and the
/// return of a call. A session keeps the list and the buffer from frame to frame.
#[derive(Drop)]
pub struct Room {
    /// The list.
    pub pieces: Vec<ByteList>,
    /// The buffer.
    pub frame: Vec<u8>,
    /// The return of a call that may change something, begun.
    pub begun: Option<Begun>,
}

impl Room {
    /// No room yet.
    pub fn new(alloc: Global) -> Room {
        Room {
            pieces: Vec::new(alloc),
            frame: Vec::new(alloc),
            begun: None,
        }
    }

    /// Takes room for the answer to what an item asks, behind this serial: where that is a request
    /// on a node, or a call that may change something.
    pub fn take(
        &mut self,
        alloc: Global,
        client: &Client,
        act: &Act,
        serial: u32,
    ) -> Result<(), WantOfMemory>
        ensures { OnOk result (IsTakenFor client.now serial act.now self.new) }
    {
        match act {
            Act::Node { .. } => self.take_frame(),
            Act::Portal { call, .. } => self.take_return(alloc, client, call, serial),
            _ => Ok(()),
        }
    }

    fn take_return(
        &mut self,
        alloc: Global,
        client: &Client,
        call: &Message,
        serial: u32,
    ) -> Result<(), WantOfMemory>
        ensures { OnOk result (HasReturn client.now serial call.now self.new) }
    {
        self.pieces.reserve(1)?;
        let next = serial_after(serial);
        let begun = begin(alloc, call, &client.settings, next)?;
        self.begun = begun;
        Ok(())
    }

    fn take_frame(&mut self) -> Result<(), WantOfMemory>
        ensures { OnOk result (IsTaken self.new) }
    {
        self.pieces.reserve(1)?;
        self.frame.reserve(FRAME_ROOM)?;
        Ok(())
    }

    /// Takes the list and the buffer of an answer on a mount back.
    pub fn keep(&mut self, kind: Kind, answer: List<ByteList>) {
        match kind {
            // Messages come in lists of their own.
            Kind::Bus => {}
            Kind::Mount => self.keep_frame(answer.into_vec()),
        }
    }

    fn keep_frame(&mut self, answer: Vec<ByteList>) {
        let mut pieces = answer;
        let Some(frame) = pieces.pop() else {
            return;
        };
        self.pieces = pieces;
        // A longer frame came in a buffer of its own, and this one is still here.
        if self.frame.capacity() == 0 {
            self.frame = frame.into_vec();
        }
    }
}

/// An empty list in place of this one, which is handed out, and nothing stands in it.
pub fn handed_out<T: Drop>(alloc: Global, list: &mut Vec<T>) -> Vec<T>
    ensures items { result.items ≡ [] }
    ensures room { vec_capacity result ≡ vec_capacity list.old }
{
    let mut out = mem::replace(list, Vec::new(alloc));
    out.clear();
    out
}
