//! The laws. Each function does nothing; its contract is the law.

ghost use Rattle.cost_laws.specs.Links.{WorkersCostAsAsked};
ghost use Rattle.cost_laws.specs.Seats.{SeatsCostAll};
ghost use Rattle.cost_laws.specs.Streams.{StreamsAskOnce, StreamsCostAsAsked};

/// Each stream of bytes asks so much of the history, and no more or less.
pub fn streams_ask_once()
    ensures { StreamsAskOnce }
{}

/// However a connection ended over a source that told its stream, what it made
/// of the history and an Enter that the history had no room for cost together
/// at most what the stream asks.
pub fn streams_cost_as_asked()
    ensures { StreamsCostAsAsked }
{}

/// However a worker ended over a listener and sources that told what was to
/// come, what it made of the history and an Enter that the history had no room
/// for cost together at most what the links ask.
pub fn workers_cost_as_asked<S, K>()
    ensures { WorkersCostAsAsked S K }
{}

/// Where all entries are of the seats from 1 to a number, they cost what those
/// of each seat cost, together.
pub fn seats_cost_all()
    ensures { SeatsCostAll }
{}
