//! What a seat of a desk that waits for nobody is answered.

use crate::reply::{Refused, Reply};
use crate::request::Request;

/// The answer to a request of a seat.
#[derive(Debug, Drop)]
pub enum Asked {
    /// The request was answered.
    Answered(Reply),
    /// Another seat holds the turn, and nothing was asked.
    Busy {
        /// The number of the seat that holds it.
        holder: u32,
        /// The request, handed back.
        request: Request,
    },
    /// The request is no entry of the history.
    Refused(Refused),
}
