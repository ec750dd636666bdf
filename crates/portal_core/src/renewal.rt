//! When a portal begins a new history.

ghost use Rattle.std.specs.Prelude.{◌≡◌, None, fold};
ghost use Rattle.portal_core.specs.Renewing.{lesser};

use portal_base::memory::WantOfMemory;
use portal_model::state::Connection;
use thiserror::Error;

/// Why no new history begins.
#[derive(Clone, Copy, Debug, PartialEq, Eq, Error)]
pub enum RenewError {
    /// A connection is open.
    #[error("the connection of seat {seat} is open")]
    Open {
        /// The least seat of one that is.
        seat: u32,
    },
    /// There was no memory.
    #[error("no memory for a new history")]
    Memory,
}

impl From<WantOfMemory> for RenewError {
    ghost use Rattle.std.specs.Prelude.{◌≡◌};
    ghost use Rattle.portal_core.specs.declared.renewal.RenewError.TheVariants.{Memory};

    ghost from_gives = { λ _ e. e ≡ Memory };

    fn from(_error: WantOfMemory) -> RenewError {
        RenewError::Memory
    }
}

/// The least seat of these connections.
pub(crate) fn least_seat(connections: &[Connection]) -> Option<u32>
    ensures { result ≡ fold lesser None connections.now }
{
    let mut least = None;
    for connection in connections {
        least = lesser(least, connection);
    }
    least
}

/// The lesser of a seat and that of a connection.
fn lesser(least: Option<u32>, connection: &Connection) -> Option<u32>
    ensures { result ≡ lesser least connection.now }
{
    match least {
        None => Some(connection.seat),
        Some(seat) => Some(seat.min(connection.seat)),
    }
}
