//! The connections of a script that are open, by their numbers.

ghost use Rattle.std.specs.Prelude.{◌≡◌, ◌<◌, [], length, OnErr, OnOk, None, Some};
ghost use Rattle.script_replay.specs.Scenes.{placed, sessions_of};

use portal_base::memory::WantOfMemory;
use session::session::Session;
use std::alloc::Global;
use std::marker::Model;
use std::mem;

/// A table of the sessions of open connections, each at its number.
///
/// Contracts see the table, which may end before a number at which none is.
#[derive(Drop)]
pub struct Connections {
    sessions: Vec<Option<Session>>,
}

impl Model for Connections {
    ghost use Rattle.std.specs.Prelude.{List, Option};
    ghost use Rattle.session.specs.Standings.{Standing};

    ghost Value = { List (Option Standing) };

    ghost view = { λ c. c.sessions.items };
}

impl Connections {
    /// No connection is open.
    pub fn new(alloc: Global) -> Connections
        ensures { result ≡ [] }
    {
        Connections {
            sessions: Vec::new(alloc),
        }
    }

    /// Takes the session at a number, where one is.
    pub fn take(&mut self, seat: u32) -> Option<Session>
        ensures taken { result ≡ sessions_of self.old seat }
        ensures left { sessions_of self.new ≡ placed (sessions_of self.old) seat None }
    {
        let index = seat as usize;
        if index >= self.sessions.len() {
            return None;
        }
        mem::replace(&mut self.sessions[index], None)
    }

    /// Puts a session at a number, in place of what was there.
    pub fn put(&mut self, seat: u32, session: Session) -> Result<(), WantOfMemory>
        ensures ok { OnOk result (sessions_of self.new ≡ placed (sessions_of self.old) seat
            (Some session)) }
        ensures same { OnErr result (sessions_of self.new ≡ sessions_of self.old) }
    {
        let index = seat as usize;
        self.reach(index)?;
        self.sessions[index] = Some(session);
        Ok(())
    }

    /// Lets the table reach an index.
    fn reach(&mut self, index: usize) -> Result<(), WantOfMemory>
        ensures reached { OnOk result (index < length self.new) }
        ensures same { sessions_of self.new ≡ sessions_of self.old }
    {
        while self.sessions.len() <= index {
            self.sessions.push(None)?;
        }
        Ok(())
    }
}
