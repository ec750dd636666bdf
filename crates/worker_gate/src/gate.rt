//! A gate, which is told of a worker's steps, and what tells it.

ghost use Rattle.std.specs.Prelude.{◌≡◌};
ghost use Rattle.worker_gate.specs.Gates.{desk_of, name_of_desk, sink_of};

use once_desk::OnceDesk;
use portal_base::outside::{Sink, WriteAnswer};
use portal_desk::{Desk, TryDesk};
use portal_history::cost_of;
use portal_model::asked::Asked;
use portal_model::reply::{Refused, Reply};
use portal_model::request::Request;
use std::alloc::Global;

/// A step of a worker.
#[derive(Clone, Copy, Debug, PartialEq, Eq)]
pub enum Point {
    /// A request was read, and is about to be asked.
    Read,
    /// A piece was written, or failed to be.
    Written,
}

/// Who is told of the steps of workers, and may hold a worker there.
pub trait Gate {
    /// The worker of this number is at this step.
    fn at(&self, worker: u32, point: Point);

    /// The desk answered a request of the worker of this number, which costs the history so
    /// many bytes.
    fn answered(&self, _worker: u32, _cost: u64) {}

    /// The desk refused a request of the worker of this number.
    fn refused(&self, _worker: u32, _why: &Refused) {}

    /// The history was renewed, behind so many turns.
    fn renewed(&self, _turns: u64) {}
}

/// A gate that holds nobody.
#[derive(Clone, Copy, Drop)]
pub struct OpenGate;

impl Gate for OpenGate {
    fn at(&self, _worker: u32, _point: Point) {}
}

/// A desk that tells a gate `Read` ahead of each request, and behind it what it cost or why
/// it was refused, and passes every call on.
///
/// Contracts see the desk that it borrows.
#[derive(Drop)]
pub struct GateDesk<'a, D, G> {
    worker: u32,
    desk: &'a mut D,
    gate: &'a G,
}

impl<'a, D: Desk, G: Gate> GateDesk<'a, D, G> {
    /// The desk of the worker of this number.
    pub fn new(worker: u32, desk: &'a mut D, gate: &'a G) -> GateDesk<'a, D, G>
        ensures same_desk { name_of_desk result ≡ desk.entry.ghost_name }
        ensures as_it_was { desk_of result ≡ desk.old }
    {
        GateDesk { worker, desk, gate }
    }

    /// The desk again.
    pub fn into_desk(self) -> &'a mut D
        ensures same_desk { result.ghost_name ≡ name_of_desk self.entry }
        ensures as_it_is { result.now ≡ desk_of self.entry }
    {
        let GateDesk {
            worker: _,
            desk,
            gate: _,
        } = self;
        desk
    }
}

impl<'a, D: Desk, G: Gate> Desk for GateDesk<'a, D, G> {
    ghost use Rattle.std.specs.Prelude.{◌≡◌, refl};
    ghost use Rattle.std.proofs.Common.{◌∙◌};

    ghost seated = { λ d. D.seated d.desk.now };

    // It is the same desk, which goes as it goes.
    ghost goes = { λ d e. (e.desk.ghost_name ≡ d.desk.ghost_name)
        × D.goes d.desk.now e.desk.now };

    fn ask(&mut self, alloc: Global, request: Request) -> Result<Reply, Refused> {
        self.gate.at(self.worker, Point::Read);
        let cost = cost_of(&request);
        let answer = self.desk.ask(alloc, request);
        match &answer {
            Ok(_) => self.gate.answered(self.worker, cost),
            Err(why) => self.gate.refused(self.worker, why),
        }
        answer
    }

    fn known(&self) {
        self.desk.known();
    }

    ghost stands = { λ d. (refl, D.stands d.desk.now) };

    ghost follows = { λ d e f h k. (
      k.0 ∙ h.0,
      D.follows d.desk.now e.desk.now f.desk.now h.1 k.1,
    ) };
}

impl<'a, D: OnceDesk, G: Gate> TryDesk for GateDesk<'a, D, G> {
    ghost use Rattle.std.specs.Prelude.{◌≡◌, refl};
    ghost use Rattle.std.proofs.Common.{◌∙◌};

    ghost seated = { λ d. D.seated d.desk.now };

    ghost busy = { λ d. D.busy d.desk.now };

    // It is the same desk, which goes as it goes.
    ghost goes = { λ d e. (e.desk.ghost_name ≡ d.desk.ghost_name)
        × D.goes d.desk.now e.desk.now };

    // A request that is put off is told `Read` again as it is asked again.
    fn try_ask(&mut self, alloc: Global, request: Request) -> Asked {
        self.gate.at(self.worker, Point::Read);
        let cost = cost_of(&request);
        let asked = self.desk.ask_once(alloc, request);
        match &asked {
            Asked::Answered(_) => self.gate.answered(self.worker, cost),
            Asked::Busy { .. } => {}
            Asked::Refused(why) => self.gate.refused(self.worker, why),
        }
        asked
    }

    fn known(&self) {
        self.desk.known();
    }

    ghost stands = { λ d. (refl, D.stands d.desk.now) };

    ghost follows = { λ d e f h k. (
      k.0 ∙ h.0,
      D.follows d.desk.now e.desk.now f.desk.now h.1 k.1,
    ) };
}

/// A sink that passes every write on, and then tells a gate `Written`.
///
/// It owns its sink and gives it back, since a sink says nothing of what it
/// borrows. Contracts see that sink.
#[derive(Drop)]
pub struct GateSink<'a, K, G> {
    worker: u32,
    // Owned and given back, where a desk is borrowed: after a call that is generic over a sink,
    // contracts don't know that a borrowed one is still the same.
    sink: K,
    gate: &'a G,
}

impl<'a, K: Sink, G: Gate> GateSink<'a, K, G> {
    /// The sink of the worker of this number.
    pub fn new(worker: u32, sink: K, gate: &'a G) -> GateSink<'a, K, G>
        ensures { sink_of result ≡ sink }
    {
        GateSink { worker, sink, gate }
    }

    /// The sink again.
    pub fn into_sink(self) -> K
        ensures { result ≡ sink_of self.entry }
    {
        let GateSink {
            worker: _,
            sink,
            gate: _,
        } = self;
        sink
    }
}

impl<'a, K: Sink, G: Gate> Sink for GateSink<'a, K, G> {
    ghost told = { λ s. K.told s.sink };

    ghost faults = { λ s. K.faults s.sink };

    fn write(&mut self, bytes: &[u8]) -> WriteAnswer {
        let answer = self.sink.write(bytes);
        self.gate.at(self.worker, Point::Written);
        answer
    }
}
