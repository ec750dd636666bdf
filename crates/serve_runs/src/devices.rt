//! What the runs stand over.

ghost use Rattle.std.specs.Prelude.{◌≡◌, ◌<◌, ◌^◌, IfOk};
ghost use Rattle.portal_start.specs.Loading.{AreFirst};

use crate::held_tree::{HeldTree, Meeting};
use host_tree::MemoryTree;
use portal_base::limits::Settings;
use portal_base::names::HostPath;
use portal_base::outside::{ListWords, SetClock};
use portal_core::portal::Portal;
use portal_lines::{DOCUMENTS, PLENTY, limits};
use record_keeper::MemoryKeeper;
use script_form::devices::{ScriptDevices, devices_of};
use script_form::reader::read_script;
use std::alloc::Global;
use std::time::Clock;
use vector_lines::error::{VectorError, given};
use vector_lines::notation::debug;

/// One file that holds `hello`, and a document of it for org.ed.
pub const SCRIPT: &[u8] = b"file /home/a.txt 68656c6c6f\ndoc 0000000a r /home/a.txt org.ed=rw\n";

/// The tree of a run.
pub type RunTree<'a, R> = HeldTree<'a, R, MemoryTree>;

/// A portal over devices in memory, but that a look at its tree may be held.
pub type HeldPortal<'a, R> = Portal<RunTree<'a, R>, MemoryKeeper, SetClock, ListWords>;

/// The devices of a script, whose tree begins with first files alone.
pub fn devices(alloc: Global, script: &[u8]) -> Result<ScriptDevices, VectorError>
    ensures told { IfOk result (λ devices. devices.tree.files ≡ devices.tree.began) }
    ensures first { IfOk result (λ devices. AreFirst devices.tree.began) }
{
    let read = given(alloc, read_script(alloc, script))?;
    let devices = devices_of(alloc, &read)?;
    Ok(devices)
}

/// A portal over the devices of a script, in whose tree the first look may be held.
pub fn held_portal<'a, R: Clock>(
    rt: &'a R,
    alloc: Global,
    script: &[u8],
    meeting: &'a Meeting,
    held: bool,
) -> Result<HeldPortal<'a, R>, VectorError> {
    let ScriptDevices {
        tree,
        keeper,
        words,
    } = devices(alloc, script)?;
    let tree = HeldTree {
        rt,
        meeting,
        held,
        tree,
    };
    let clock = SetClock::new(0);
    match Portal::start(alloc, tree, keeper, clock, words, limits(DOCUMENTS, PLENTY)) {
        Ok(portal) => Ok(portal),
        Err(refusal) => {
            let why = debug(alloc, &refusal.error);
            drop(refusal);
            Err(VectorError::Refused(why?))
        }
    }
}

/// The settings of a service whose history may cost so much.
pub fn settings(alloc: Global, history: u64) -> Result<Settings, VectorError>
    ensures made { IfOk result (λ s. s.limits.made < 2 ^ 32) }
    ensures queued { IfOk result (λ s. s.limits.queued < 2 ^ 32) }
{
    Ok(Settings {
        limits: limits(DOCUMENTS, history),
        mountpoint: given(alloc, HostPath::read(alloc, b"/run/doc"))?,
        guid: [
            0x01, 0x23, 0x45, 0x67, 0x89, 0xab, 0xcd, 0xef, 0x01, 0x23, 0x45, 0x67, 0x89, 0xab,
            0xcd, 0xef,
        ],
    })
}
