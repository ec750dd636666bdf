//! How far a session has come.

ghost use Rattle.std.specs.Prelude.{◌≡◌, ◌+◌, ◌≤◌, ◌^◌, length};

use bytes::BytesMut;
use session::act::Client;
use session::room::Room;
use session::serve::Stage;
use session::served::Served;

/// What a session does next.
#[derive(Clone, Copy)]
pub enum Turn {
    /// It asks Enter.
    Enter,
    /// It serves the items that come.
    Serve,
    /// It asks Leave. The connection ended so.
    Leave(Served),
    /// Nothing. The connection ended so.
    Over(Served),
}

/// One connection, from before Enter to behind Leave.
#[derive(Drop)]
pub struct Course {
    /// The client.
    pub client: Client,
    /// How far its stream has come.
    pub stage: Stage,
    /// What is done next.
    pub turn: Turn,
    /// How many bytes stood ahead of `left`.
    pub before: u64,
    /// The bytes that were read and aren't asked yet.
    pub left: BytesMut,
    /// The bytes that answer what was asked and that the sink hasn't taken yet.
    pub unsent: BytesMut,
    /// Room for the answer to a request on a node.
    pub room: Room,
    // A connection has no more bytes than it may have.
    ghost within: { before + length left.items ≤ 2 ^ 40 },
}
