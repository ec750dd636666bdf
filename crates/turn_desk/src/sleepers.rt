//! Seats that sleep until the turn is given back.

ghost use Rattle.std.specs.Prelude.{◌≡◌};

use crate::rule::Top;
use portal_core::storied::Storied;
use std::hint::spin_loop;
use std::sync::Wait;
use std::sync::atomic::{AtomicU64, Ordering};

/// The word that says whose turn it is.
const TURN: usize = 0;

/// How often a seat looks whether the turn is free before it sleeps. Together these
/// looks take some twenty microseconds: as long as the turns of a few others, and less
/// than it costs both sides that one sleeps and is woken.
const LOOKS: u32 = 400;

/// How many seats sleep until the turn is given back, or are about to.
#[derive(Drop)]
pub(crate) struct Sleepers {
    count: AtomicU64,
}

impl Sleepers {
    /// Nobody sleeps.
    pub(crate) fn new() -> Sleepers {
        Sleepers {
            count: AtomicU64::new(0),
        }
    }

    /// Wakes one of them, where there is any. Whoever gave the turn back calls it
    /// then, whatever it did in its turn.
    pub(crate) fn wake_one<S: Storied>(&self, top: &Top<S>)
        requires { top.now.table_id.words ≡ 2 }
    {
        // All steps stand in one order. A sleeper counts itself and then reads the holder: either
        // it reads what stands behind the freeing, or this reads its count. The kernel puts it to
        // sleep only while the word is what it read. So none sleeps while the turn is free, unless
        // one that is awake asks next, and its freeing wakes the next again.
        if self.count.load(Ordering::SeqCst) != 0 {
            top.wake_one(TURN);
        }
    }

    /// Looks for a short while whether the turn is free, and then sleeps until one
    /// gives it back. It may return for no reason, so the caller asks again.
    pub(crate) fn wait<R: Wait, S: Storied>(&self, rt: &R, top: &Top<S>)
        requires { top.now.table_id.words ≡ 2 }
    {
        for _ in 0..LOOKS {
            if top.peek(TURN) == 0 {
                return;
            }
            spin_loop();
        }
        self.count.fetch_add(1, Ordering::SeqCst);
        match u32::try_from(top.peek(TURN)) {
            // It is free, or is no number of a seat, of which the rule knows that it never stands.
            Ok(0) | Err(_) => {}
            Ok(holder) => top.park(rt, TURN, holder),
        }
        // Awake it asks next, and needs nobody to wake it: only who sleeps is counted.
        self.count.fetch_sub(1, Ordering::SeqCst);
    }
}
