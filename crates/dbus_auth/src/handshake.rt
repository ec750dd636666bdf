//! The states of the handshake, and one step of it.

ghost use Rattle.std.specs.Prelude.{◌≡◌, ◌≢◌, ◌↔◌, ◌≤◌, length, codes, IsOk, IfOk, OnErr};
ghost use Rattle.dbus_auth.specs.Command.{longest_line};
ghost use Rattle.dbus_auth.specs.Handshake.{table};

use crate::command::{self, Command};
use crate::reply::{data_line, error_line, ok_line, rejected_line};
use portal_base::list::ByteList;
use portal_base::memory::WantOfMemory;
use std::alloc::Global;
use std::marker::Model;

/// The longest line that is taken, in bytes, its CR LF included.
pub const LONGEST_LINE: usize = 1024;

/// `LONGEST_LINE` is the longest line of the definitions: 1024 bytes, which this
/// handshake chooses, since the standard gives none.
///
/// It does nothing; its contract is the law.
pub fn longest_line_is_told()
    ensures { LONGEST_LINE ≡ longest_line }
{}

/// How far the handshake has come (D-Bus Specification, "Server states").
#[derive(Clone, Copy, Debug, PartialEq, Eq)]
pub enum AuthState {
    /// OK was not said, or was taken back.
    WaitingForAuth,
    /// `AUTH EXTERNAL` came without an identity, and its `DATA` is due.
    WaitingForData,
    /// OK was said, and `BEGIN` may come.
    WaitingForBegin,
}

/// What a line of the client is answered.
#[derive(Debug, Drop, PartialEq, Eq)]
pub enum AuthAnswer {
    /// These bytes, a line with its CR LF, go to the client.
    Say(ByteList),
    /// The handshake is over: messages follow.
    Begin,
    /// `BEGIN` came before OK was said, which ends the connection.
    Early,
}

/// The server's side of one handshake.
///
/// Contracts see it as the record of the server's GUID and the state.
#[derive(Debug, Drop)]
pub struct Auth {
    guid: [u8; 16],
    state: AuthState,
}

impl Model for Auth {
    ghost use Rattle.dbus_auth.specs.Handshake.{Handshake};

    ghost Value = { Handshake };

    ghost view = { λ auth. record { guid = auth.guid; state = auth.state } };
}

impl Auth {
    ghost use Rattle.dbus_auth.specs.Command.{longest_line};
    ghost use Rattle.dbus_auth.specs.Handshake.{begun, step, EndsLine};

    /// The start of a connection to the server with this GUID.
    pub fn new(guid: &[u8; 16]) -> Auth
        ensures { result ≡ begun guid.now }
    {
        Auth {
            guid: *guid,
            state: AuthState::WaitingForAuth,
        }
    }

    /// Takes the next line of the client, without its CR LF.
    ///
    /// The answer and the state behind it are those of the table in
    /// `docs/handshake.md`. Where there is no memory for the reply the state
    /// stays, and the same line may be given again; `BEGIN` needs no memory.
    /// After `Begin` and `Early` the state stays too, and no line is due.
    pub fn step(&mut self, alloc: Global, line: &[u8]) -> Result<AuthAnswer, WantOfMemory>
        requires { length line.now ≤ longest_line }
        ensures ok { IfOk result (λ answer. (answer, self.new) ≡ step self.old line.now) }
        ensures ends_line { IfOk result EndsLine }
        ensures begin { IfOk result (λ answer. (answer ≡ AuthAnswer.Begin)
            ↔ ((line.now ≡ codes "BEGIN") × (self.old.state ≡ AuthState.WaitingForBegin))) }
        ensures early { IfOk result (λ answer. (answer ≡ AuthAnswer.Early)
            ↔ ((line.now ≡ codes "BEGIN") × (self.old.state ≢ AuthState.WaitingForBegin))) }
        ensures begin_needs_no_memory { line.now ≡ codes "BEGIN" → IsOk result }
        ensures err { OnErr result (self.new ≡ self.old) }
    {
        let (answer, state) = cell(alloc, &self.guid, self.state, command::read(line))?;
        self.state = state;
        Ok(answer)
    }
}

/// The cell of the table at a state and a command: the answer, and the next
/// state.
fn cell(
    alloc: Global,
    guid: &[u8; 16],
    state: AuthState,
    command: Command,
) -> Result<(AuthAnswer, AuthState), WantOfMemory>
    ensures ok { IfOk result (λ cell. cell ≡ table guid.now state command) }
    ensures begin_needs_no_memory { command ≡ Command.Begin → IsOk result }
{
    let (reply, next) = match (command, state) {
        // No line is due after BEGIN, and so no memory is wanted for it.
        (Command::Begin, AuthState::WaitingForBegin) => return Ok((AuthAnswer::Begin, state)),
        (Command::Begin, _) => return Ok((AuthAnswer::Early, state)),
        // Any identity is taken: the socket already says who calls.
        (Command::AuthExternalWithIdentity, AuthState::WaitingForAuth)
        | (Command::Data, AuthState::WaitingForData) => {
            (ok_line(alloc, guid)?, AuthState::WaitingForBegin)
        }
        (Command::AuthExternal, AuthState::WaitingForAuth) => {
            (data_line(alloc)?, AuthState::WaitingForData)
        }
        (Command::AuthOther, AuthState::WaitingForAuth) | (Command::CancelOrError, _) => {
            (rejected_line(alloc)?, AuthState::WaitingForAuth)
        }
        _ => (error_line(alloc)?, state),
    };
    Ok((AuthAnswer::Say(reply), next))
}
