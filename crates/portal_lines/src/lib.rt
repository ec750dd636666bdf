//! The portal that lines of vectors speak of, and how they write its callers.
//!
//! A line's portal stands over devices in memory, which a script opens. A caller is
//! `host`, or the name of an application; a connection speaks `bus` or `mount`.
//!
//! **It promises** that a portal which a script opens has no history yet, and nothing
//! else by contract: what it reads is shown by the lines of the programs above it.
//!
//! ```text
//! let portal = opened_by(alloc, b"file /home/a.txt 68656c6c6f\n", limits(DOCUMENTS, PLENTY))?;
//! let (who, kind) = (who(alloc, "org.ed")?, kind("bus")?);
//! ```
#![tactic(auto)]

ghost use Rattle.std.specs.Prelude.{◌≡◌, [], ◌<◌, ◌^◌, IfOk};

use host_tree::MemoryTree;
use portal_base::limits::Limits;
use portal_base::names::AppId;
use portal_base::outside::{ListWords, SetClock};
use portal_base::who::{Kind, Who};
use portal_core::portal::Portal;
use record_keeper::MemoryKeeper;
use script_form::devices::{ScriptDevices, devices_of};
use script_form::reader::read_script;
use std::alloc::Global;
use vector_lines::error::{LineError, VectorError, given};
use vector_lines::notation::debug;

/// The cost that a history may have where no line says otherwise.
pub const PLENTY: u64 = 536_870_912;

/// How many documents may be live where no line says otherwise.
pub const DOCUMENTS: u64 = 65_536;

/// The limits of a portal that may have so many live documents and whose history
/// may cost so much.
pub fn limits(documents: u64, history: u64) -> Limits
    ensures made { result.made < 2 ^ 32 }
    ensures queued { result.queued < 2 ^ 32 }
{
    Limits {
        documents,
        made: 1_048_576,
        history,
        handles: 1_024,
        queued: 16,
        file_bytes: 268_435_456,
    }
}

/// A portal over devices in memory.
pub type ScriptPortal = Portal<MemoryTree, MemoryKeeper, SetClock, ListWords>;

/// A portal that a script opens within these limits.
pub fn opened_by(alloc: Global, script: &[u8], limits: Limits) -> Result<ScriptPortal, VectorError>
    requires made { limits.made < 2 ^ 32 }
    requires queued { limits.queued < 2 ^ 32 }
    ensures { IfOk result (λ portal. portal.story.history ≡ []) }
{
    let read = given(alloc, read_script(alloc, script))?;
    let ScriptDevices {
        tree,
        keeper,
        words,
    } = devices_of(alloc, &read)?;
    let clock = SetClock::new(0);
    match Portal::start(alloc, tree, keeper, clock, words, limits) {
        Ok(portal) => Ok(portal),
        Err(refusal) => Err(VectorError::Refused(debug(alloc, &refusal.error)?)),
    }
}

/// Lets a portal go. A crate that lets one go by itself proves anew how each part of it goes.
pub fn let_go(portal: ScriptPortal) {
    drop(portal);
}

/// A caller: `host`, or the name of an application.
pub fn who(alloc: Global, word: &str) -> Result<Who, VectorError> {
    match word {
        "host" => Ok(Who::Host),
        _ => Ok(Who::App(given(alloc, AppId::read(alloc, word.as_bytes()))?)),
    }
}

/// What a connection speaks: `bus` or `mount`.
pub fn kind(word: &str) -> Result<Kind, LineError> {
    match word {
        "bus" => Ok(Kind::Bus),
        "mount" => Ok(Kind::Mount),
        _ => Err(LineError::BadLine),
    }
}
