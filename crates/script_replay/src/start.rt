//! The portal that a script opens.

ghost use Rattle.std.specs.Prelude.{IfOk};
ghost use Rattle.script_form.specs.Order.{IsScript};
ghost use Rattle.script_replay.specs.Started.{StartsScript};

use crate::counted::CountedPortal;
use crate::settings::limits;
use portal_base::memory::WantOfMemory;
use portal_base::outside::SetClock;
use portal_core::portal::Portal;
use portal_start::start::StartError;
use script_form::devices::{ScriptDevices, devices_of};
use script_lines::script::Script;
use std::alloc::Global;

/// The portal of a script: over devices in memory, and its requests are counted.
pub type ScriptPortal = CountedPortal;

/// The portal that a script opens: over a tree of its files, a keeper of its
/// records, a clock that shows 0, and its words.
pub fn start(alloc: Global, script: &Script) -> Result<ScriptPortal, WantOfMemory>
    requires { IsScript script.now.lines }
    ensures { IfOk result (StartsScript script.now.lines) }
{
    let ScriptDevices {
        tree,
        keeper,
        words,
    } = devices_of(alloc, script)?;
    let clock = SetClock::new(0);
    match Portal::start(alloc, tree, keeper, clock, words, limits()) {
        Ok(portal) => {
            portal.known();
            let counted = CountedPortal::new(portal);
            Ok(counted)
        }
        Err(refusal) => match refusal.error {
            StartError::Memory => Err(WantOfMemory),
            // A script's records are good, and it makes no load fail.
            StartError::KeeperFault => unreachable!(),
            StartError::BadVersion { .. } => unreachable!(),
            StartError::BadRecord { .. } => unreachable!(),
        },
    }
}
