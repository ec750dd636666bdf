//! Services in memory, whose workers are held.

ghost use Rattle.std.specs.Prelude.{◌≡◌, ◌≤◌, ◌<◌, ◌^◌, length};
ghost use Rattle.portal_start.specs.Loading.{AreFirst};

use crate::devices::{SCRIPT, devices, settings};
use crate::held_tree::{HeldTree, Meeting};
use crate::hold::{Hold, HoldGate, Steps, put_hold};
use crate::posts::{Posts, put_posts};
use crate::told::put_status;
use portal_base::limits::Settings;
use portal_base::list::List;
use portal_base::outside::SetClock;
use portal_lines::PLENTY;
use script_form::devices::ScriptDevices;
use serve_posts::serve::serve;
use std::alloc::{AllocGlobal, Global};
use std::random::RandomSource;
use std::sync::Wait;
use std::thread::Threads;
use std::time::Clock;
use vector_lines::error::{VectorError, bad};
use vector_lines::output::Output;

/// What a service is for whose workers are held so, and whose connections are polled or not; and
/// what its posts are answered.
pub fn served<R: Threads + Wait + Clock + RandomSource + AllocGlobal + Sync>(
    rt: &R,
    alloc: Global,
    hold: Hold,
    polled: bool,
) -> Result<String, VectorError> {
    let settings = settings(alloc, history_of(hold))?;
    let answered = Steps::new();
    let gate = HoldGate::new(rt, hold);
    let mut out = Output::new(alloc);
    put_hold(&mut out, hold);
    out.text(if polled { ", polled\n" } else { "\n" });
    let mut posts = List::new(alloc);
    let told = match put_posts(alloc, &mut posts, &answered, hold, polled) {
        Ok(()) => put_served(rt, alloc, &mut out, posts, &settings, &gate),
        Err(error) => {
            drop(posts);
            Err(VectorError::from(error))
        }
    };
    if gate.ran_out() {
        out.text("\na hold ran out");
    }
    told?;
    Ok(out.into_text()?)
}

/// What the history of a service may cost: in rounds an Enter and a GETATTR of the host, and no
/// second Enter, and else plenty.
fn history_of(hold: Hold) -> u64 {
    match hold {
        Hold::NobodyInRounds => 383,
        Hold::Nobody | Hold::AtFirst | Hold::AtSecond { worker: _ } => PLENTY,
    }
}

/// Adds what two posts are answered, or one.
fn put_served<R: Threads + Wait + Clock + RandomSource + AllocGlobal + Sync>(
    rt: &R,
    alloc: Global,
    out: &mut Output,
    posts: Posts<'_>,
    settings: &Settings,
    gate: &HoldGate<'_, R>,
) -> Result<(), VectorError>
    requires made { settings.now.limits.made < 2 ^ 32 }
    requires queued { settings.now.limits.queued < 2 ^ 32 }
{
    let count = posts.len();
    if count < 1 || count > 2 {
        drop(posts);
        return bad();
    }
    match devices(alloc, SCRIPT) {
        Ok(devices) => {
            put_served_over(rt, alloc, out, posts, devices, settings, gate);
            Ok(())
        }
        Err(error) => {
            drop(posts);
            Err(error)
        }
    }
}

/// The same over devices.
fn put_served_over<R: Threads + Wait + Clock + RandomSource + AllocGlobal + Sync>(
    rt: &R,
    alloc: Global,
    out: &mut Output,
    posts: Posts<'_>,
    devices: ScriptDevices,
    settings: &Settings,
    gate: &HoldGate<'_, R>,
)
    requires count { (1 ≤ length posts) × (length posts ≤ 65535) }
    requires made { settings.now.limits.made < 2 ^ 32 }
    requires queued { settings.now.limits.queued < 2 ^ 32 }
    requires told { devices.tree.files ≡ devices.tree.began }
    requires first { AreFirst devices.tree.began }
{
    let ScriptDevices {
        tree,
        keeper,
        words,
    } = devices;
    let meeting = Meeting::new();
    let tree = HeldTree {
        rt,
        meeting: &meeting,
        held: false,
        tree,
    };
    let clock = SetClock::new(0);
    let status = serve(alloc, rt, posts, tree, keeper, clock, words, settings, gate);
    put_status(out, &status);
    drop(status);
}
