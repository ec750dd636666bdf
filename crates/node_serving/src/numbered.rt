//! The last number that a connection was given.

ghost use Rattle.std.specs.Prelude.{◌≡◌, Some, length};
ghost use Rattle.std.specs.List.{position};
ghost use Rattle.node_serving.specs.Numbered.{handle_given, is_of, numbered};

use portal_base::list::List;
use portal_model::reply::{Answer, NodeAnswer};
use portal_model::state::Connection;
use std::alloc::Global;
use std::mem;

/// Keeps the number of the handle that an answer gives, as the last that the seat's
/// connection was given.
pub(crate) fn number(alloc: Global, connections: &mut List<Connection>, seat: u32, answer: &Answer)
    ensures numbered { connections.new
        ≡ numbered seat (handle_given answer.now) connections.old }
    ensures count { length connections.new ≡ length connections.old }
{
    if let Some(fh) = handle_given(answer) {
        keep_last(alloc, connections, seat, fh);
    }
}

/// The number of the handle that an answer gives.
fn handle_given(answer: &Answer) -> Option<u64>
    ensures { result ≡ handle_given answer.now }
{
    match answer {
        Answer::Node(NodeAnswer::Opened { fh }) => Some(*fh),
        Answer::Node(NodeAnswer::Created { fh, .. }) => Some(*fh),
        _ => None,
    }
}

/// Keeps a number as the last that the connection of a seat was given.
fn keep_last(alloc: Global, connections: &mut List<Connection>, seat: u32, fh: u64)
    ensures numbered { connections.new ≡ numbered seat (Some fh) connections.old }
    ensures count { length connections.new ≡ length connections.old }
{
    if let Some(at) = place_of(connections.as_slice(), seat) {
        let mut all = mem::replace(connections, List::new(alloc)).into_vec();
        let connection = &mut all[at];
        connection.opens = fh;
        *connections = List::from_vec(all);
    }
}

/// Where the open connection of a seat stands.
fn place_of(connections: &[Connection], seat: u32) -> Option<usize>
    ensures { result ≡ position (is_of seat) connections.now }
{
    connections
        .iter()
        .position(|connection| connection.seat == seat)
}
