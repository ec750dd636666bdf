//! What the words behind `serve` come to.

ghost use Rattle.std.specs.Prelude.{map};
ghost use Rattle.worker_gate.specs.Working.{sides};
ghost use Rattle.serve_posts.specs.Posts.{halls};
ghost use Rattle.serve_start.specs.Runs.{Obeys};

use crate::end::ServeEnd;
use crate::openers::Openers;
use crate::run::{ServeRun, run};
use crate::status::end_of_status;
use host_tree::HostTree;
use portal_base::outside::{Clock, Words};
use portal_base::text::Text;
use record_keeper::Keeper;
use serve_words::words::{ServeAsk, WordsError, read_words};
use std::alloc::{AllocGlobal, Global};
use std::random::RandomSource;
use std::sync::Wait;
use std::thread::Threads;
use worker_gate::gate::Gate;
use worker_gate::listener::Listener;

/// What words came to.
#[derive(Drop)]
pub enum Obeyed {
    /// They ask for a text: help, or the version.
    Told(String),
    /// How their service ended, or why none began.
    Ended(ServeEnd),
}

/// Does what the words behind `serve` ask for, from what these openers open.
pub fn obey<R, O, L, T, K, C, W, G>(
    alloc: Global,
    rt: &R,
    words: &[Text],
    openers: &mut O,
    gate: &G,
) -> Obeyed
where
    R: Threads + Wait + RandomSource + AllocGlobal + Sync,
    O: Openers<L, T, K, C, W>,
    L: Listener + Send + Drop,
    L::In: Send + Drop,
    L::Out: Send + Drop,
    T: HostTree + Send + Drop,
    K: Keeper + Send + Drop,
    C: Clock + Send + Drop,
    W: Words + Send + Drop,
    G: Gate + Sync,
    ensures { Obeys C (sides L.In.left L.In.faults L.Out.told L.Out.faults)
        (halls L.links L.ends L.faults) O.at T.is K.is W.told words.now (O.faults openers.old)
        result (O.faults openers.new) }
{
    match read_words(alloc, words) {
        Ok(ServeAsk::Tell(text)) => Obeyed::Told(text),
        Ok(ServeAsk::Serve(words)) => match run(alloc, rt, &words, openers, gate) {
            ServeRun::Refused(end) => Obeyed::Ended(end),
            ServeRun::Served(status) => Obeyed::Ended(end_of_status(openers, &status)),
        },
        Err(WordsError::Faulty(why)) => Obeyed::Ended(ServeEnd::Usage { why }),
        Err(WordsError::Memory) => Obeyed::Ended(ServeEnd::Memory),
    }
}
