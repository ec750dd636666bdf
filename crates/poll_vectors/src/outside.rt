//! A source, a sink and a desk that do as they are told.

ghost use Rattle.std.specs.Prelude.{◌≡◌, ◌<◌, ◌≤◌, length};

use crate::steps::{Step, Steps};
use futures::task::Context;
use poll_ends::outside::{PollRead, PollSink, PollSource, PollWrote};
use portal_base::list::ByteList;
use portal_desk::TryDesk;
use portal_model::asked::Asked;
use portal_model::request::Request;
use std::alloc::Global;
use std::cell::Cell;

/// A source that gives its bytes by steps.
#[derive(Drop)]
pub struct StepSource<'a> {
    /// All its bytes.
    pub bytes: &'a [u8],
    /// How many it gave.
    pub at: usize,
    /// What its reads come to.
    pub steps: Steps<'a>,
    /// How many reads failed.
    pub faults: u64,
    /// How many found nothing yet.
    pub waits: u64,
}

impl<'a> PollSource for StepSource<'a> {
    ghost use Rattle.std.specs.Prelude.{None};

    ghost left = { λ s. None };

    ghost counts = { λ s. record { faults = s.faults; waits = s.waits } };

    fn poll_read(&mut self, context: &mut Context<'_>, buffer: &mut [u8]) -> PollRead {
        match self.steps.next() {
            Step::UpTo(most) => {
                let start = self.at.min(self.bytes.len());
                let end = start.saturating_add(most).min(self.bytes.len());
                if start >= end {
                    return PollRead::End;
                }
                let len = fill(buffer, &self.bytes[start..end]);
                self.at = start + len;
                PollRead::Got(len)
            }
            Step::NotYet => {
                self.waits = self.waits.saturating_add(1);
                let _ = context.yield_now::<()>();
                PollRead::NotYet
            }
            Step::Failed => {
                self.faults = self.faults.saturating_add(1);
                PollRead::Failed
            }
        }
    }
}

/// Copies as many bytes as there is room for, and says how many.
fn fill(buffer: &mut [u8], bytes: &[u8]) -> usize
    requires room { 0 < length buffer.old }
    requires some { 0 < length bytes.now }
    ensures least { 1 ≤ result }
    ensures most { result ≤ length buffer.new }
    ensures there { result ≤ length bytes.now }
{
    let len = bytes.len().min(buffer.len());
    buffer[..len].copy_from_slice(&bytes[..len]);
    len
}

/// A sink that takes bytes by steps, and keeps them.
#[derive(Drop)]
pub struct StepSink<'a> {
    /// What it took.
    pub bytes: ByteList,
    /// What its writes come to.
    pub steps: Steps<'a>,
    /// How many bytes sinks took.
    pub written: &'a Cell<u64>,
    /// How many writes failed.
    pub faults: u64,
    /// How many took nothing yet.
    pub waits: u64,
}

impl<'a> PollSink for StepSink<'a> {
    ghost use Rattle.std.specs.Prelude.{None};

    ghost told = { λ s. None };

    ghost counts = { λ s. record { faults = s.faults; waits = s.waits } };

    fn poll_write(&mut self, context: &mut Context<'_>, bytes: &[u8]) -> PollWrote {
        match self.steps.next() {
            Step::UpTo(most) => {
                let len = most.max(1).min(bytes.len());
                if self.bytes.extend_from_slice(&bytes[..len]).is_err() {
                    self.faults = self.faults.saturating_add(1);
                    return PollWrote::Failed;
                }
                self.written
                    .set(self.written.get().saturating_add(len as u64));
                PollWrote::Took(len)
            }
            Step::NotYet => {
                self.waits = self.waits.saturating_add(1);
                let _ = context.yield_now::<()>();
                PollWrote::NotYet
            }
            Step::Failed => {
                self.faults = self.faults.saturating_add(1);
                PollWrote::Failed
            }
        }
    }
}

/// A desk that is busy at each try whose number is a multiple of `every`; where that is
/// 0, never by itself.
#[derive(Drop)]
pub struct ShyDesk<D> {
    /// The desk.
    pub desk: D,
    /// At which tries it is busy.
    pub every: u64,
    /// How many tries there were.
    pub tries: u64,
    /// At how many it was busy.
    pub busy: u64,
}

impl<D> ShyDesk<D> {
    /// Whether it is busy at the next try by itself.
    fn is_shy(&mut self) -> bool
        ensures desk { self.new.desk ≡ self.old.desk }
        ensures busy { self.new.busy ≡ self.old.busy }
    {
        self.tries = self.tries.wrapping_add(1);
        self.every > 0 && self.tries % self.every == 0
    }
}

impl<D: TryDesk> TryDesk for ShyDesk<D> {
    ghost seated = { λ d. D.seated d.desk };

    ghost busy = { λ d. d.busy };

    ghost goes = { λ d e. D.goes d.desk e.desk };

    fn try_ask(&mut self, alloc: Global, request: Request) -> Asked {
        if self.is_shy() {
            self.busy = self.busy.saturating_add(1);
            return Asked::Busy { holder: 0, request };
        }
        match self.desk.try_ask(alloc, request) {
            Asked::Answered(reply) => Asked::Answered(reply),
            Asked::Busy { holder, request } => {
                self.busy = self.busy.saturating_add(1);
                Asked::Busy { holder, request }
            }
            Asked::Refused(why) => Asked::Refused(why),
        }
    }

    fn known(&self) {
        self.desk.known();
    }

    ghost stands = { λ d. D.stands d.desk };

    ghost follows = { λ d e f h k. D.follows d.desk e.desk f.desk h k };
}
