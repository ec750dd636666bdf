//! What stands in the portal's lists.

ghost use Rattle.std.specs.Prelude.{◌≡◌, ◌==◌, option_copied};
ghost use Rattle.std.specs.List.{position};
ghost use Rattle.portal_model.specs.State.{connection_of as open_connection};
ghost use Rattle.portal_model.specs.Leave.{of_others as connections_of_others};
ghost use Rattle.portal_model.specs.Step.{bus_of as open_bus};

use portal_base::list::List;
use portal_base::who::Kind;
use portal_model::state::Connection;

/// The open connection of a seat.
pub fn connection_of(connections: &[Connection], seat: u32) -> Option<&Connection>
    ensures { option_copied result ≡ open_connection connections.now seat }
{
    connections
        .iter()
        .find(|connection| connection.seat == seat)
}

/// The open connection of a seat, where it is a bus.
pub fn bus_of(connections: &[Connection], seat: u32) -> Option<&Connection>
    ensures { option_copied result ≡ open_bus (open_connection connections.now seat) }
{
    let connection = connection_of(connections, seat)?;
    match connection.kind {
        Kind::Mount => None,
        Kind::Bus => Some(connection),
    }
}

/// The connections of other seats than this one.
pub fn of_others(connections: List<Connection>, seat: u32) -> List<Connection>
    ensures { result ≡ connections_of_others seat connections }
{
    let mut kept = connections.into_vec();
    kept.retain(|connection| connection.seat != seat);
    List::from_vec(kept)
}

/// Where the open connection of a seat stands.
pub fn place_of(connections: &[Connection], seat: u32) -> Option<usize>
    ensures { result ≡ position (λ c. c.seat == seat) connections.now }
{
    connections
        .iter()
        .position(|connection| connection.seat == seat)
}
