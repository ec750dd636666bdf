//! Seats and workers in threads, over portals in memory.
//!
//! What is printed of the runs is the same whatever the threads do:
//!
//! - while a call of the tree is held that seat 1 asked for, seat 2 is told that
//!   seat 1 holds the turn and gets its request back; asked again, that is answered;
//! - two threads ask 200,000 times between them: the history is as long as the
//!   number of answers;
//! - three times two mounts are served, on each of which GETATTR is asked behind
//!   Enter, and workers are held: each at its first request until the other is at
//!   its own; the first at its second request until the other has answered; and
//!   the second so;
//! - a bus of the host is served whose message comes only once the handshake is
//!   answered;
//! - a mount of three links is served over a history that has room for one
//!   connection, so that the second is refused and the third is answered in a
//!   second round, in which the other mount, whose listener gave none, stays
//!   closed;
//! - the same services, whose connections are polled.
//!
//! A `serve` whose workers run one after another lets a hold run out; one that
//! hands links back unread answers none; a session that reads its input to the end
//! before it answers finds a message that doesn't come.
#![tactic(auto)]

mod crowd;
mod devices;
mod held;
mod held_tree;
mod hold;
mod links;
mod posts;
mod served;
mod told;
mod turns;
mod two;

use crate::hold::Hold;
use crate::served::served;
use crate::turns::{TurnRun, turns};
use std::alloc::{AllocError, Global};
use std::io;
use vector_lines::error::VectorError;

fn main(rt: HostRuntime) -> io::Result<()> {
    for run in [TurnRun::Held, TurnRun::Crowd] {
        let text = shown(rt.alloc(), turns(&rt, rt.alloc(), run))?;
        println!(rt; "{text}")?;
    }
    for polled in [false, true] {
        for hold in [
            Hold::AtFirst,
            Hold::AtSecond { worker: 1 },
            Hold::AtSecond { worker: 2 },
            Hold::Nobody,
            Hold::NobodyInRounds,
        ] {
            let text = shown(rt.alloc(), served(&rt, rt.alloc(), hold, polled))?;
            println!(rt; "{text}")?;
        }
    }
    Ok(())
}

/// What a run told, or why it didn't end.
fn shown(alloc: Global, run: Result<String, VectorError>) -> Result<String, AllocError> {
    match run {
        Ok(text) => Ok(text),
        Err(error) => error.told(alloc),
    }
}
